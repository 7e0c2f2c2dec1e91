//! What a shell would take, and a line does not.
use crate::names::NamedHint;

/// What a line has of a shell.
#[derive(Clone, Copy)]
pub enum Shell {
    /// A `\` at its end.
    Continued,
    /// A `--` at its beginning.
    Continues,
    /// A `\` before a sign in a match.
    Escape,
}

static SHELLS: [NamedHint; 3] = [
    NamedHint {
        name: "`lsp-add sw0 p1 \\`",
        hint: "a \\ at the end does not join the next line: write the commands on one line with -- between, or each on its own",
    },
    NamedHint {
        name: "`-- lsp-add sw0 p1`",
        hint: "-- stands between two commands of one line: leave it out, or put both on one line",
    },
    NamedHint {
        name: "`acl-add sw0 from-lport 1 \"inport == \\\"p1\\\"\" drop`",
        hint: "a \\ is a sign like others: put the match into single quotes, and the name of a port into double ones, as 'inport == \"p1\"'",
    },
];

/// A line that shows each, and the hint.
pub fn shell_hints() -> &'static [NamedHint] {
    &SHELLS
}

impl Shell {
    /// The hint.
    pub fn hint(self) -> Option<&'static str> {
        Some(SHELLS.get(self as usize)?.hint)
    }
}
