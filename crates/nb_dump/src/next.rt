//! The next number that an object has.
ghost use Rattle.std.specs.Prelude.{◌≡◌, ◌<◌, ℕ, None, IfSome, IfNone};
ghost use Rattle.nv_table.specs.Table.{record_of};
ghost use Rattle.nb_dump.specs.declared.parts.Part.TheVariants as parts;
ghost use Rattle.nb_dump.specs.inner.Parts.{object, edits_at, AreNone, IsNoDatapath, IsNoRule, IsNotListed};

use crate::parts::Part;
use nb_store::Records;
use nv_base::ObjId;
use nv_table::{Record, Table};

// The least number above this one that a record has, or 2^32 where none has one.
fn number_after<R: Record>(table: &Table<R>, low: u32) -> u64
    ensures above { low < result }
    ensures free { (n : ℕ) → low < n → n < result → record_of R.number (object n) table.now ≡ None }
{
    match table.after(Some(ObjId(low))) {
        Some(record) => u64::from(record.number().0),
        None => 1 << 32,
    }
}

// That of a switch, a router or a port.
fn datapath_after(records: &Records, low: u32) -> u64
    ensures above { low < result }
    ensures free { (n : ℕ) → low < n → n < result → IsNoDatapath records.now (object n) }
{
    let switch = number_after(records.switches(), low);
    let port = number_after(records.ports(), low);
    let router = number_after(records.routers(), low);
    let router_port = number_after(records.router_ports(), low);
    switch.min(port).min(router).min(router_port)
}

// That of a route, a NAT rule, a load balancer or an ACL.
fn rule_after(records: &Records, low: u32) -> u64
    ensures above { low < result }
    ensures free { (n : ℕ) → low < n → n < result → IsNoRule records.now (object n) }
{
    let route = number_after(records.routes(), low);
    let nat = number_after(records.nats(), low);
    let lb = number_after(records.lbs(), low);
    let acl = number_after(records.acls(), low);
    route.min(nat).min(lb).min(acl)
}

// That of a set, a group or a binding.
fn listed_after(records: &Records, low: u32) -> u64
    ensures above { low < result }
    ensures free { (n : ℕ) → low < n → n < result → IsNotListed records.now (object n) }
{
    let set = number_after(records.sets(), low);
    let group = number_after(records.groups(), low);
    let binding = number_after(records.bindings(), low);
    set.min(group).min(binding)
}

// That of any object.
fn object_after(records: &Records, low: u32) -> u64
    ensures above { low < result }
    ensures free { AreNone (edits_at parts.Objects records.now) low result }
{
    let datapath = datapath_after(records, low);
    let rule = rule_after(records, low);
    let listed = listed_after(records, low);
    datapath.min(rule).min(listed)
}

// That of an object that a part is about.
fn part_after(records: &Records, part: Part, low: u32) -> u64
    ensures above { low < result }
    ensures free { AreNone (edits_at part records.now) low result }
{
    match part {
        Part::Objects => object_after(records, low),
        Part::Members => number_after(records.groups(), low),
        Part::SwitchLbs => number_after(records.switches(), low),
        Part::RouterLbs => number_after(records.routers(), low),
    }
}

/// The next number of an object that a part is about.
pub(crate) fn next_number(records: &Records, part: Part, low: u32) -> Option<ObjId>
    ensures above { IfSome result (λ number. low < number.0) }
    ensures below { IfSome result (λ number. number.0 < records.now.next) }
    ensures some { IfSome result (λ number. AreNone (edits_at part records.now) low number.0) }
    ensures none { IfNone result (AreNone (edits_at part records.now) low records.now.next) }
{
    let number = part_after(records, part, low);
    if number < u64::from(records.next()) {
        Some(ObjId(number as u32))
    } else {
        None
    }
}
