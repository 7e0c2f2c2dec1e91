use nb_check::Tables;
use nb_records::Kind;
use nv_base::{OutOfMemory, put_dec};
use std::alloc::Global;

// The kinds that limits count, in the order of their limits.
static KINDS: [Kind; 20] = [
    Kind::Switch,
    Kind::Router,
    Kind::Port,
    Kind::RouterPort,
    Kind::Network,
    Kind::Address,
    Kind::Security,
    Kind::Acl,
    Kind::AclSwitch,
    Kind::Route,
    Kind::Nat,
    Kind::Lb,
    Kind::Vip,
    Kind::Backend,
    Kind::VipDatapath,
    Kind::Neighbour,
    Kind::Set,
    Kind::Member,
    Kind::MatchText,
    Kind::Binding,
];

/// Appends how much there is of each kind, a line each.
pub(crate) fn put_counts(
    alloc: Global,
    tables: &Tables,
    out: &mut Vec<u8>,
) -> Result<(), OutOfMemory> {
    for kind in &KINDS {
        out.extend_from_slice(kind.name().as_bytes())?;
        out.push(b' ')?;
        put_dec(out, u128::from(tables.count(alloc, *kind)?))?;
        out.push(b'\n')?;
    }
    Ok(())
}
