//! Commands of ovn-nbctl(8) and ovn-sbctl(8) that work on a table of the database.
use nb_words::Word;

/// A command, the table that it is of, a column that it names, and what to write in its place. Where there is no table or no column, it is
/// of each other one.
#[derive(Clone, Copy)]
pub struct TableHint {
    pub command: &'static str,
    pub table: &'static str,
    pub column: &'static str,
    pub hint: &'static str,
}

static TABLES: [TableHint; 56] = [
    TableHint {
        command: "set",
        table: "Logical_Switch_Port",
        column: "type",
        hint: "write lsp-set-type PORT TYPE; each column has a command of its own",
    },
    TableHint {
        command: "set",
        table: "Logical_Switch_Port",
        column: "options",
        hint: "write lsp-set-options PORT router-port=NAME; each column has a command of its own",
    },
    TableHint {
        command: "set",
        table: "Logical_Switch_Port",
        column: "addresses",
        hint: "write lsp-set-addresses PORT ADDRESS...; each column has a command of its own",
    },
    TableHint {
        command: "set",
        table: "Logical_Switch_Port",
        column: "port_security",
        hint: "write lsp-set-port-security PORT GUARD...; each column has a command of its own",
    },
    TableHint {
        command: "set",
        table: "Logical_Switch_Port",
        column: "enabled",
        hint: "write lsp-set-enabled PORT enabled, or disabled; each column has a command of its own",
    },
    TableHint {
        command: "set",
        table: "Logical_Switch_Port",
        column: "",
        hint: "a port is set by lsp-set-type, lsp-set-options, lsp-set-addresses, lsp-set-port-security and lsp-set-enabled",
    },
    TableHint {
        command: "set",
        table: "Logical_Router_Port",
        column: "enabled",
        hint: "write lrp-set-enabled PORT enabled, or disabled",
    },
    TableHint {
        command: "set",
        table: "Logical_Router_Port",
        column: "",
        hint: "a router port is as lrp-add makes it: remove it by lrp-del, and add it anew",
    },
    TableHint {
        command: "set",
        table: "Address_Set",
        column: "",
        hint: "write as-set SET MEMBER..., with spaces between the members",
    },
    TableHint {
        command: "set",
        table: "Port_Group",
        column: "",
        hint: "write pg-set-ports GROUP PORT..., with the names of the ports",
    },
    TableHint {
        command: "set",
        table: "Load_Balancer",
        column: "",
        hint: "write lb-add LB VIP BACKENDS for each VIP",
    },
    TableHint {
        command: "set",
        table: "ACL",
        column: "",
        hint: "an ACL is as acl-add makes it: remove it by acl-del, and add it anew",
    },
    TableHint {
        command: "set",
        table: "NB_Global",
        column: "",
        hint: "leave the line out: a whole network has no options here",
    },
    TableHint {
        command: "set",
        table: "Logical_Switch",
        column: "",
        hint: "leave the line out: a switch has no options here",
    },
    TableHint {
        command: "set",
        table: "Logical_Router",
        column: "",
        hint: "leave the line out: a router has no options here",
    },
    TableHint {
        command: "set",
        table: "",
        column: "",
        hint: "columns are set by commands of their own, which ./ovn-nd --help names",
    },
    TableHint {
        command: "create",
        table: "Address_Set",
        column: "",
        hint: "write as-add SET MEMBER..., with spaces between the members",
    },
    TableHint {
        command: "create",
        table: "Port_Group",
        column: "",
        hint: "write pg-add GROUP PORT..., with the names of the ports",
    },
    TableHint {
        command: "create",
        table: "Static_MAC_Binding",
        column: "",
        hint: "write smb-add PORT IP MAC",
    },
    TableHint {
        command: "create",
        table: "Load_Balancer",
        column: "",
        hint: "write lb-add LB VIP BACKENDS, and attach it by ls-lb-add or lr-lb-add",
    },
    TableHint {
        command: "create",
        table: "Logical_Switch",
        column: "",
        hint: "write ls-add SWITCH",
    },
    TableHint {
        command: "create",
        table: "Logical_Switch_Port",
        column: "",
        hint: "write lsp-add SWITCH PORT",
    },
    TableHint {
        command: "create",
        table: "Logical_Router",
        column: "",
        hint: "write lr-add ROUTER",
    },
    TableHint {
        command: "create",
        table: "Logical_Router_Port",
        column: "",
        hint: "write lrp-add ROUTER PORT MAC NETWORK..., with its networks",
    },
    TableHint {
        command: "create",
        table: "Logical_Router_Static_Route",
        column: "",
        hint: "write lr-route-add ROUTER PREFIX NEXTHOP",
    },
    TableHint {
        command: "create",
        table: "NAT",
        column: "",
        hint: "write lr-nat-add ROUTER TYPE EXTERNAL LOGICAL",
    },
    TableHint {
        command: "create",
        table: "ACL",
        column: "",
        hint: "write acl-add OWNER DIRECTION PRIORITY MATCH VERDICT",
    },
    TableHint {
        command: "create",
        table: "",
        column: "",
        hint: "objects are added by commands of their own, which ./ovn-nd --help names",
    },
    TableHint {
        command: "destroy",
        table: "Address_Set",
        column: "",
        hint: "write as-del SET",
    },
    TableHint {
        command: "destroy",
        table: "Port_Group",
        column: "",
        hint: "write pg-del GROUP",
    },
    TableHint {
        command: "destroy",
        table: "Static_MAC_Binding",
        column: "",
        hint: "write smb-del PORT IP",
    },
    TableHint {
        command: "destroy",
        table: "Load_Balancer",
        column: "",
        hint: "write lb-del LB",
    },
    TableHint {
        command: "destroy",
        table: "Logical_Switch",
        column: "",
        hint: "write ls-del SWITCH",
    },
    TableHint {
        command: "destroy",
        table: "Logical_Switch_Port",
        column: "",
        hint: "write lsp-del PORT",
    },
    TableHint {
        command: "destroy",
        table: "Logical_Router",
        column: "",
        hint: "write lr-del ROUTER",
    },
    TableHint {
        command: "destroy",
        table: "Logical_Router_Port",
        column: "",
        hint: "write lrp-del PORT",
    },
    TableHint {
        command: "destroy",
        table: "",
        column: "",
        hint: "objects are removed by commands of their own, which ./ovn-nd --help names",
    },
    TableHint {
        command: "add",
        table: "Address_Set",
        column: "",
        hint: "write as-set SET MEMBER..., with all members of the set",
    },
    TableHint {
        command: "add",
        table: "Port_Group",
        column: "",
        hint: "write pg-set-ports GROUP PORT..., with all ports of the group",
    },
    TableHint {
        command: "add",
        table: "Logical_Switch",
        column: "load_balancer",
        hint: "write ls-lb-add SWITCH LB",
    },
    TableHint {
        command: "add",
        table: "Logical_Router",
        column: "load_balancer",
        hint: "write lr-lb-add ROUTER LB",
    },
    TableHint {
        command: "remove",
        table: "Address_Set",
        column: "",
        hint: "write as-set SET MEMBER..., with the members that are left",
    },
    TableHint {
        command: "remove",
        table: "Port_Group",
        column: "",
        hint: "write pg-set-ports GROUP PORT..., with the ports that are left",
    },
    TableHint {
        command: "remove",
        table: "Logical_Switch",
        column: "load_balancer",
        hint: "write ls-lb-del SWITCH LB",
    },
    TableHint {
        command: "remove",
        table: "Logical_Router",
        column: "load_balancer",
        hint: "write lr-lb-del ROUTER LB",
    },
    TableHint {
        command: "clear",
        table: "Address_Set",
        column: "",
        hint: "write as-set SET, without members",
    },
    TableHint {
        command: "clear",
        table: "Port_Group",
        column: "",
        hint: "write pg-set-ports GROUP, without ports",
    },
    TableHint {
        command: "clear",
        table: "Logical_Switch_Port",
        column: "addresses",
        hint: "write lsp-set-addresses PORT, without addresses",
    },
    TableHint {
        command: "clear",
        table: "Logical_Switch_Port",
        column: "port_security",
        hint: "write lsp-set-port-security PORT, without guards",
    },
    TableHint {
        command: "list",
        table: "Logical_Flow",
        column: "",
        hint: "write lflow-list",
    },
    TableHint {
        command: "find",
        table: "Logical_Flow",
        column: "",
        hint: "write lflow-list",
    },
    TableHint {
        command: "list",
        table: "MAC_Binding",
        column: "",
        hint: "write nbr-list",
    },
    TableHint {
        command: "find",
        table: "MAC_Binding",
        column: "",
        hint: "write nbr-list",
    },
    TableHint {
        command: "list",
        table: "",
        column: "",
        hint: "leave the line out: ./ovn-nd --show FILE shows the network, and the command dump writes it as a script",
    },
    TableHint {
        command: "find",
        table: "",
        column: "",
        hint: "leave the line out: ./ovn-nd --show FILE shows the network, and the command dump writes it as a script",
    },
    TableHint {
        command: "get",
        table: "",
        column: "",
        hint: "leave the line out: ./ovn-nd --show FILE shows the network, and the command dump writes it as a script",
    },
];

/// The tables and columns that there is a hint for, the first that fits before the others.
pub fn table_hints() -> &'static [TableHint] {
    &TABLES
}

// The text of the first word, or nothing.
fn first_text(words: &[Word]) -> &[u8] {
    match words.first() {
        Some(word) => word.text.as_slice(),
        None => b"",
    }
}

fn is_table(wanted: &str, table: &[u8]) -> bool {
    wanted.is_empty() || wanted.as_bytes().eq_ignore_ascii_case(table)
}

// Whether one of the words names the column.
fn is_column(wanted: &str, words: &[Word]) -> bool {
    wanted.is_empty()
        || words
            .iter()
            .any(|word| word.text.as_slice().starts_with(wanted.as_bytes()))
}

/// The hint for a command of this name with these words after it.
pub fn table_hint(name: &[u8], words: &[Word]) -> Option<&'static str> {
    let table = first_text(words);
    let columns = words.get(2..).unwrap_or(&[]);
    for row in &TABLES {
        if row.command.as_bytes() == name
            && is_table(row.table, table)
            && is_column(row.column, columns)
        {
            return Some(row.hint);
        }
    }
    None
}
