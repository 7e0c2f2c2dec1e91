//! The parts of a dump: each is a list of commands, by rising number of the records that they are about.
ghost use Rattle.std.specs.Prelude.{◌≡◌, ◌-◌, ◌++◌, OnOk, OnErr};
ghost use Rattle.nv_base.specs.Growth.{GrowsAtEnd};
ghost use Rattle.nv_table.specs.Table.{record_of};
ghost use Rattle.nb_text.specs.Commands.{script};
ghost use Rattle.nb_dump.specs.Edits.{edits_for, datapath_edits, rule_edits, listed_edits, object_edits};
ghost use Rattle.nb_dump.specs.inner.Parts.{edits_at, first_edits};

use crate::ends::{put_members, put_router_lbs, put_switch_lbs};
use crate::next::next_number;
use crate::records::Scripted;
use nb_store::Records;
use nv_base::{ObjId, OutOfMemory};
use nv_table::Table;

/// A part of a dump.
#[derive(Clone, Copy)]
pub(crate) enum Part {
    /// What makes the records.
    Objects,
    /// The ports of groups.
    Members,
    /// The load balancers of switches.
    SwitchLbs,
    /// The load balancers of routers.
    RouterLbs,
}

// What makes the record of a number, where there is one.
fn put_record<R: Scripted>(
    out: &mut Vec<u8>,
    records: &Records,
    table: &Table<R>,
    number: ObjId,
) -> Result<(), OutOfMemory>
    ensures ok { OnOk result (out.new.items ≡ out.old.items ++ script (edits_for (R.edits records.now) (record_of R.Record.number number table.now))) }
    ensures err { OnErr result (GrowsAtEnd out.old.items out.new.items) }
{
    match table.get(number) {
        Some(record) => record.put(out, records),
        None => Ok(()),
    }
}

// What makes the switch, the router or the port of a number.
fn put_datapath(out: &mut Vec<u8>, records: &Records, number: ObjId) -> Result<(), OutOfMemory>
    ensures ok { OnOk result (out.new.items ≡ out.old.items ++ script (datapath_edits records.now number)) }
    ensures err { OnErr result (GrowsAtEnd out.old.items out.new.items) }
{
    put_record(out, records, records.switches(), number)?;
    put_record(out, records, records.ports(), number)?;
    put_record(out, records, records.routers(), number)?;
    put_record(out, records, records.router_ports(), number)?;
    Ok(())
}

// What makes the route, the NAT rule, the load balancer or the ACL of a number.
fn put_rule(out: &mut Vec<u8>, records: &Records, number: ObjId) -> Result<(), OutOfMemory>
    ensures ok { OnOk result (out.new.items ≡ out.old.items ++ script (rule_edits records.now number)) }
    ensures err { OnErr result (GrowsAtEnd out.old.items out.new.items) }
{
    put_record(out, records, records.routes(), number)?;
    put_record(out, records, records.nats(), number)?;
    put_record(out, records, records.lbs(), number)?;
    put_record(out, records, records.acls(), number)?;
    Ok(())
}

// What makes the set, the group or the binding of a number.
fn put_listed(out: &mut Vec<u8>, records: &Records, number: ObjId) -> Result<(), OutOfMemory>
    ensures ok { OnOk result (out.new.items ≡ out.old.items ++ script (listed_edits records.now number)) }
    ensures err { OnErr result (GrowsAtEnd out.old.items out.new.items) }
{
    put_record(out, records, records.sets(), number)?;
    put_record(out, records, records.groups(), number)?;
    put_record(out, records, records.bindings(), number)?;
    Ok(())
}

/// Appends the commands that make the switch, router, port, route, NAT rule, load balancer, ACL, set, group or binding of a number, as the
/// dump has them, or nothing where no object has it (not from OVN; the commands are those of ovn-nbctl(8)). After `OutOfMemory` the bytes
/// before are first, and a part of the commands may follow.
pub fn put_object(out: &mut Vec<u8>, records: &Records, number: ObjId) -> Result<(), OutOfMemory>
    ensures ok { OnOk result (out.new.items ≡ out.old.items ++ script (object_edits records.now number)) }
    ensures err { OnErr result (GrowsAtEnd out.old.items out.new.items) }
{
    put_datapath(out, records, number)?;
    put_rule(out, records, number)?;
    put_listed(out, records, number)?;
    Ok(())
}

// What a part says of the object of a number.
fn put_at(
    out: &mut Vec<u8>,
    records: &Records,
    part: Part,
    number: ObjId,
) -> Result<(), OutOfMemory>
    ensures ok { OnOk result (out.new.items ≡ out.old.items ++ script (edits_at part records.now number)) }
    ensures err { OnErr result (GrowsAtEnd out.old.items out.new.items) }
{
    match part {
        Part::Objects => put_object(out, records, number),
        Part::Members => match records.groups().get(number) {
            Some(group) => put_members(out, records, group),
            None => Ok(()),
        },
        Part::SwitchLbs => match records.switches().get(number) {
            Some(switch) => put_switch_lbs(out, records, switch),
            None => Ok(()),
        },
        Part::RouterLbs => match records.routers().get(number) {
            Some(router) => put_router_lbs(out, records, router),
            None => Ok(()),
        },
    }
}

/// Appends a part of the dump.
pub(crate) fn put_part(out: &mut Vec<u8>, records: &Records, part: Part) -> Result<(), OutOfMemory>
    ensures ok { OnOk result (out.new.items ≡ out.old.items ++ script (first_edits (edits_at part records.now) (records.now.next - 1))) }
    ensures err { OnErr result (GrowsAtEnd out.old.items out.new.items) }
{
    let mut low = 0;
    while let Some(number) = next_number(records, part, low) {
        put_at(out, records, part, number)?;
        low = number.0;
    }
    Ok(())
}
