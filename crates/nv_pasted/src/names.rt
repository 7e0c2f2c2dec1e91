//! Words that stand for a command's name.

/// A word, and what to write in its place.
#[derive(Clone, Copy)]
pub struct NamedHint {
    pub name: &'static str,
    pub hint: &'static str,
}

const LEFT_OUT: &str = "there is no Open vSwitch and no chassis here: leave the line out";

static NAMES: [NamedHint; 12] = [
    NamedHint {
        name: "ovn-nbctl",
        hint: "leave ovn-nbctl out: a line begins with the command; docs/from-ovn.md brings a whole script",
    },
    NamedHint {
        name: "ovn-sbctl",
        hint: "leave ovn-sbctl out: a line begins with the command, as lflow-list",
    },
    NamedHint {
        name: "ovn-trace",
        hint: "write trace in place of ovn-trace",
    },
    NamedHint {
        name: "ovs-vsctl",
        hint: LEFT_OUT,
    },
    NamedHint {
        name: "ovs-ofctl",
        hint: LEFT_OUT,
    },
    NamedHint {
        name: "ovs-appctl",
        hint: LEFT_OUT,
    },
    NamedHint {
        name: "ovn-appctl",
        hint: LEFT_OUT,
    },
    NamedHint {
        name: "sudo",
        hint: "leave sudo out: a line begins with the command",
    },
    NamedHint {
        name: "$",
        hint: "leave the prompt out: a line begins with the command",
    },
    NamedHint {
        name: "sync",
        hint: "leave the line out: each line is done before the next one is read",
    },
    NamedHint {
        name: "init",
        hint: "leave the line out: a network begins empty",
    },
    NamedHint {
        name: "dump-flows",
        hint: "write lflow-list",
    },
];

/// The words that there is a hint for.
pub fn named_hints() -> &'static [NamedHint] {
    &NAMES
}

/// The hint for a word that stands for a command's name.
pub fn name_hint(word: &[u8]) -> Option<&'static str> {
    let row = NAMES.iter().find(|row| row.name.as_bytes() == word)?;
    Some(row.hint)
}
