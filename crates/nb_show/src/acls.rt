//! ACLs, in the order in which they decide.
use crate::columns::put_right;
use crate::objects::put_number;
use expr_core::put_tree;
use nb_records::Acl;
use nb_store::Records;
use nb_text::{verdict_text, way_text};
use nv_base::{ObjId, OutOfMemory, put_dec};
use std::alloc::Global;

// What is added to the priority of an ACL for its flows (ovn-northd(8)).
const FLOW_PRIORITY: u32 = 1000;

// The highest priority of an ACL.
const HIGHEST: u16 = 32_767;

/// Appends the ACLs of a switch or a group: those from ports first, and of each direction first the one that decides
/// (ovn-nbctl(8), `acl-list`), with the priority of their flows.
pub(crate) fn put_acls(
    alloc: Global,
    out: &mut Vec<u8>,
    records: &Records,
    owner: ObjId,
) -> Result<(), OutOfMemory> {
    let acls = acls_of(alloc, records, owner)?;
    for acl in &acls {
        put_acl(alloc, out, acl)?;
    }
    Ok(())
}

// The ACLs of a switch or a group, in the order in which they decide.
fn acls_of(alloc: Global, records: &Records, owner: ObjId) -> Result<Vec<&Acl>, OutOfMemory> {
    let mut acls = Vec::new(alloc);
    let mut last = None;
    for _ in 0..records.acls().count() {
        let Some(acl) = records.acl_of(owner, last) else {
            break;
        };
        acls.push(acl)?;
        last = Some(acl.id);
    }
    acls.sort_by_key(|acl| (acl.way, HIGHEST.saturating_sub(acl.priority), acl.id))?;
    Ok(acls)
}

fn put_acl(alloc: Global, out: &mut Vec<u8>, acl: &Acl) -> Result<(), OutOfMemory> {
    out.extend_from_slice(b"    ")?;
    put_right(out, 10, way_text(acl.way).as_bytes())?;
    put_priority(alloc, out, acl.priority)?;
    out.extend_from_slice(b" (")?;
    put_tree(out, &acl.matching)?;
    out.extend_from_slice(b") ")?;
    out.extend_from_slice(verdict_text(acl.verdict).as_bytes())?;
    put_numbers(out, acl)?;
    Ok(())
}

// A priority, in its column.
fn put_priority(alloc: Global, out: &mut Vec<u8>, priority: u16) -> Result<(), OutOfMemory> {
    let mut text = Vec::new(alloc);
    put_dec(&mut text, u128::from(priority))?;
    put_right(out, 6, &text)
}

// The number of an ACL, which its flows have as their hint, and their priority.
fn put_numbers(out: &mut Vec<u8>, acl: &Acl) -> Result<(), OutOfMemory> {
    put_number(out, b"acl ", acl.id)?;
    out.extend_from_slice(b", flows at ")?;
    put_dec(out, u128::from(u32::from(acl.priority) + FLOW_PRIORITY))?;
    out.extend_from_slice(b"]\n")?;
    Ok(())
}
