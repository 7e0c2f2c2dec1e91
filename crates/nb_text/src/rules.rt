//! The commands of load balancers, ACLs, sets and groups, each on its line.
ghost use Rattle.std.specs.Prelude.{◌≡◌, [], false, None, Some, ◌++◌, decimal, OnOk, OnErr};
ghost use Rattle.expr_core.specs.Text.{typed_text};
ghost use Rattle.nv_base.specs.Growth.{GrowsAtEnd};
ghost use Rattle.nb_records.specs.Refusal.{spaced};
ghost use Rattle.nb_records.specs.declared.edit.Edit.TheVariants as edit;
ghost use Rattle.nb_records.specs.declared.edit.OwnerKind.TheVariants as owner;
ghost use Rattle.nb_text.specs.Words.{in_quotes, service_text, backends_text, way_text, verdict_text};
ghost use Rattle.nb_text.specs.Commands.{command_line};
ghost use Rattle.nb_text.specs.inner.Rules.{rule_text};

use crate::words::{
    proto_text, put_backends, put_each, put_service, put_word, verdict_text, way_text,
};
use expr_core::{Typed, put_tree};
use nb_records::{Acl, AddrSet, Backend, Frontend, Proto, Vip};
use nv_base::{OutOfMemory, put_dec};

// Where a load balancer takes connections, after a space.
fn put_frontend(out: &mut Vec<u8>, at: Frontend) -> Result<(), OutOfMemory>
    ensures ok { OnOk result (out.new.items ≡ out.old.items ++ spaced (service_text at.addr at.port)) }
    ensures err { OnErr result (GrowsAtEnd out.old.items out.new.items) }
{
    out.push(b' ')?;
    put_service(out, at.addr, at.port)?;
    Ok(())
}

// Where connections go, after a space.
fn put_backend_word(out: &mut Vec<u8>, backends: &[Backend]) -> Result<(), OutOfMemory>
    ensures ok { OnOk result (out.new.items ≡ out.old.items ++ spaced (backends_text [] backends.now)) }
    ensures err { OnErr result (GrowsAtEnd out.old.items out.new.items) }
{
    out.push(b' ')?;
    put_backends(out, backends)?;
    Ok(())
}

/// Appends the line of `lb-add` of a VIP, with the protocol. After `OutOfMemory` more bytes may follow what was there.
pub fn put_lb_add(
    out: &mut Vec<u8>,
    name: &[u8],
    vip: &Vip,
    proto: Proto,
) -> Result<(), OutOfMemory>
    ensures ok { OnOk result (out.new.items ≡ out.old.items ++ command_line (edit.LbAdd name.now vip.now.at vip.now.backends (Some proto))) }
    ensures err { OnErr result (GrowsAtEnd out.old.items out.new.items) }
{
    out.extend_from_slice(b"lb-add")?;
    put_word(out, name)?;
    put_frontend(out, vip.at)?;
    put_backend_word(out, vip.backends.as_slice())?;
    put_word(out, proto_text(proto).as_bytes())?;
    out.push(b'\n')?;
    Ok(())
}

/// Appends the line of `ls-lb-add`. After `OutOfMemory` more bytes may follow what was there.
pub fn put_ls_lb_add(out: &mut Vec<u8>, switch: &[u8], lb: &[u8]) -> Result<(), OutOfMemory>
    ensures ok { OnOk result (out.new.items ≡ out.old.items ++ command_line (edit.LsLbAdd switch.now lb.now false)) }
    ensures err { OnErr result (GrowsAtEnd out.old.items out.new.items) }
{
    out.extend_from_slice(b"ls-lb-add")?;
    put_word(out, switch)?;
    put_word(out, lb)?;
    out.push(b'\n')?;
    Ok(())
}

/// Appends the line of `lr-lb-add`. After `OutOfMemory` more bytes may follow what was there.
pub fn put_lr_lb_add(out: &mut Vec<u8>, router: &[u8], lb: &[u8]) -> Result<(), OutOfMemory>
    ensures ok { OnOk result (out.new.items ≡ out.old.items ++ command_line (edit.LrLbAdd router.now lb.now false)) }
    ensures err { OnErr result (GrowsAtEnd out.old.items out.new.items) }
{
    out.extend_from_slice(b"lr-lb-add")?;
    put_word(out, router)?;
    put_word(out, lb)?;
    out.push(b'\n')?;
    Ok(())
}

// A match in single quotes, after a space.
fn put_match(out: &mut Vec<u8>, matching: &Typed) -> Result<(), OutOfMemory>
    ensures ok { OnOk result (out.new.items ≡ out.old.items ++ spaced (in_quotes (typed_text matching.now))) }
    ensures err { OnErr result (GrowsAtEnd out.old.items out.new.items) }
{
    out.extend_from_slice(b" '")?;
    put_tree(out, matching)?;
    out.push(b'\'')?;
    Ok(())
}

// A priority, after a space.
fn put_priority(out: &mut Vec<u8>, priority: u16) -> Result<(), OutOfMemory>
    ensures ok { OnOk result (out.new.items ≡ out.old.items ++ spaced (decimal priority)) }
    ensures err { OnErr result (GrowsAtEnd out.old.items out.new.items) }
{
    out.push(b' ')?;
    put_dec(out, u128::from(priority))?;
    Ok(())
}

// What is after the owner of an ACL.
fn put_rule(out: &mut Vec<u8>, acl: &Acl) -> Result<(), OutOfMemory>
    ensures ok { OnOk result (out.new.items ≡ out.old.items ++ rule_text acl.now) }
    ensures err { OnErr result (GrowsAtEnd out.old.items out.new.items) }
{
    put_word(out, way_text(acl.way).as_bytes())?;
    put_priority(out, acl.priority)?;
    put_match(out, &acl.matching)?;
    put_word(out, verdict_text(acl.verdict).as_bytes())?;
    out.push(b'\n')?;
    Ok(())
}

/// Appends the line of `acl-add` of an ACL of a switch. After `OutOfMemory` more bytes may follow what was there.
pub fn put_switch_acl(out: &mut Vec<u8>, switch: &[u8], acl: &Acl) -> Result<(), OutOfMemory>
    ensures ok { OnOk result (out.new.items ≡ out.old.items
        ++ command_line (edit.AclAdd switch.now acl.now.way acl.now.priority acl.now.matching acl.now.verdict false None)) }
    ensures err { OnErr result (GrowsAtEnd out.old.items out.new.items) }
{
    out.extend_from_slice(b"acl-add")?;
    put_word(out, switch)?;
    put_rule(out, acl)?;
    Ok(())
}

/// Appends the line of `acl-add` of an ACL of a port group, with its type. After `OutOfMemory` more bytes may follow what was
/// there.
pub fn put_group_acl(out: &mut Vec<u8>, group: &[u8], acl: &Acl) -> Result<(), OutOfMemory>
    ensures ok { OnOk result (out.new.items ≡ out.old.items
        ++ command_line (edit.AclAdd group.now acl.now.way acl.now.priority acl.now.matching acl.now.verdict false (Some owner.Group))) }
    ensures err { OnErr result (GrowsAtEnd out.old.items out.new.items) }
{
    out.extend_from_slice(b"--type=port-group acl-add")?;
    put_word(out, group)?;
    put_rule(out, acl)?;
    Ok(())
}

/// Appends the line of `as-add` of an address set. After `OutOfMemory` more bytes may follow what was there.
pub fn put_as_add(out: &mut Vec<u8>, set: &AddrSet) -> Result<(), OutOfMemory>
    ensures ok { OnOk result (out.new.items ≡ out.old.items ++ command_line (edit.AsAdd set.now.name set.now.members)) }
    ensures err { OnErr result (GrowsAtEnd out.old.items out.new.items) }
{
    out.extend_from_slice(b"as-add")?;
    put_word(out, set.name.as_slice())?;
    put_each(out, set.members.as_slice())?;
    out.push(b'\n')?;
    Ok(())
}

/// Appends the line of `pg-add`, without ports. After `OutOfMemory` more bytes may follow what was there.
pub fn put_pg_add(out: &mut Vec<u8>, name: &[u8]) -> Result<(), OutOfMemory>
    ensures ok { OnOk result (out.new.items ≡ out.old.items ++ command_line (edit.PgAdd name.now [])) }
    ensures err { OnErr result (GrowsAtEnd out.old.items out.new.items) }
{
    out.extend_from_slice(b"pg-add")?;
    put_word(out, name)?;
    out.push(b'\n')?;
    Ok(())
}
