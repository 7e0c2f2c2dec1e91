//! What is said of ACLs.
use crate::names::Named;
use nb_records::Acl;
use nb_store::Records;
use nv_base::Name;

/// What is said of a name that nothing has, before it and after it, and the hint.
pub(crate) fn unnamed(named: &Named) -> (&'static str, &'static str) {
    match named {
        Named::Port(_) => (
            "no port has the name ",
            "mend the name, or add the port by lsp-add: until then no packet has this port",
        ),
        Named::Set(name) if name.as_slice().ends_with(b"_ip4") => (
            "no address set has the name ",
            "mend the name, or add its port group by pg-add: until then it is empty",
        ),
        Named::Set(_) => (
            "no address set has the name ",
            "mend the name, or add the set by as-add: until then it is empty",
        ),
        Named::Group(_) => (
            "no port group has the name ",
            "mend the name, or add the group by pg-add: until then it is empty",
        ),
    }
}

/// The owner of an ACL that has no port: what it is, its name, and the command that adds a port.
#[derive(Clone, Copy)]
pub(crate) struct Bare<'r> {
    pub kind: &'static str,
    pub name: &'r Name,
    pub hint: &'static str,
}

/// The owner of an ACL, where it has no port.
pub(crate) fn bare_owner<'r>(records: &'r Records, acl: &Acl) -> Option<Bare<'r>> {
    match records.switches().get(acl.owner) {
        Some(switch) if records.port_on(switch.id, None).is_none() => Some(Bare {
            kind: "switch ",
            name: &switch.name,
            hint: "add its ports by lsp-add",
        }),
        Some(_) => None,
        None => bare_group(records, acl),
    }
}

fn bare_group<'r>(records: &'r Records, acl: &Acl) -> Option<Bare<'r>> {
    let group = records.groups().get(acl.owner)?;
    if group.ports.is_empty() {
        Some(Bare {
            kind: "port group ",
            name: &group.name,
            hint: "set its ports by pg-set-ports",
        })
    } else {
        None
    }
}
