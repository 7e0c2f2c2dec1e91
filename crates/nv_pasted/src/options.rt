//! Options of ovn-nbctl(8) and of ovn-trace(8) that no command takes here.
use crate::names::NamedHint;

const DONE: &str = "leave the option out: each line is done before the next one is read";

const NO_SERVER: &str = "leave the option out: there is no database server to ask";

const CONNECTIONS: &str =
    "leave the option out: a packet is looked up among the connections that earlier traces left, which ct-list lists and ct-flush takes out";

const IN_WORDS: &str =
    "leave the option out: a trace has the flows that the packet hits, and ./ovn-nd --detail FILE tells them in words";

static OPTIONS: [NamedHint; 16] = [
    NamedHint {
        name: "--wait",
        hint: DONE,
    },
    NamedHint {
        name: "--no-wait",
        hint: DONE,
    },
    NamedHint {
        name: "--no-leader-only",
        hint: NO_SERVER,
    },
    NamedHint {
        name: "--leader-only",
        hint: NO_SERVER,
    },
    NamedHint {
        name: "--no-shuffle-remotes",
        hint: NO_SERVER,
    },
    NamedHint {
        name: "--db",
        hint: NO_SERVER,
    },
    NamedHint {
        name: "--timeout",
        hint: NO_SERVER,
    },
    NamedHint {
        name: "--ct",
        hint: CONNECTIONS,
    },
    NamedHint {
        name: "--summary",
        hint: "leave the option out, or write --minimal, with which a trace has no flows; ./ovn-nd --detail FILE tells it in words",
    },
    NamedHint {
        name: "--detailed",
        hint: IN_WORDS,
    },
    NamedHint {
        name: "--all",
        hint: IN_WORDS,
    },
    NamedHint {
        name: "--ovs",
        hint: IN_WORDS,
    },
    NamedHint {
        name: "--friendly-names",
        hint: IN_WORDS,
    },
    NamedHint {
        name: "--no-friendly-names",
        hint: IN_WORDS,
    },
    NamedHint {
        name: "--lb-dst",
        hint: "leave the option out: the backend is chosen by the packet's addresses and ports",
    },
    NamedHint {
        name: "--select-id",
        hint: "leave the option out: a router has one route for a packet",
    },
];

/// The options that there is a hint for.
pub fn option_hints() -> &'static [NamedHint] {
    &OPTIONS
}

/// The hint for an option, with its value where it has one.
pub fn option_hint(option: &[u8]) -> Option<&'static str> {
    let name = option.split(|byte| *byte == b'=').next().unwrap_or(option);
    let row = OPTIONS.iter().find(|row| row.name.as_bytes() == name)?;
    Some(row.hint)
}
