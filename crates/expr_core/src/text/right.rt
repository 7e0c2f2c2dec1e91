ghost use Rattle.std.specs.Prelude.{◌≡◌, [], ◌++◌, codes, OnOk, OnErr};
ghost use Rattle.nv_base.specs.Growth.{GrowsAtEnd};
ghost use Rattle.expr_core.specs.declared.comparison.Item.TheVariants.{Masked, Text, AddrSet, Group};
ghost use Rattle.expr_core.specs.Text.{const_text, item_text, items_text, right_text, relation_text};

use super::constant::put_const;
use super::rel_text;
use crate::{Const, Item, Rel, Right};
use nv_base::OutOfMemory;

// A number and its mask, or the length of the prefix.
fn put_masked(out: &mut Vec<u8>, constant: Const, mask: Const) -> Result<(), OutOfMemory>
    ensures ok { OnOk result (out.new.items ≡ out.old.items ++ item_text (Masked constant mask)) }
    ensures err { OnErr result (GrowsAtEnd out.old.items out.new.items) }
{
    put_const(out, constant)?;
    out.extend_from_slice(b"/")?;
    put_const(out, mask)?;
    Ok(())
}

// A name between double quotes.
fn put_quoted(out: &mut Vec<u8>, name: &[u8]) -> Result<(), OutOfMemory>
    ensures ok { OnOk result (out.new.items ≡ out.old.items ++ item_text (Text name.now)) }
    ensures err { OnErr result (GrowsAtEnd out.old.items out.new.items) }
{
    out.push(b'"')?;
    out.extend_from_slice(name)?;
    out.push(b'"')?;
    Ok(())
}

// The name of an address set, after its mark.
fn put_set_name(out: &mut Vec<u8>, name: &[u8]) -> Result<(), OutOfMemory>
    ensures ok { OnOk result (out.new.items ≡ out.old.items ++ item_text (AddrSet name.now)) }
    ensures err { OnErr result (GrowsAtEnd out.old.items out.new.items) }
{
    out.extend_from_slice(b"$")?;
    out.extend_from_slice(name)?;
    Ok(())
}

// The name of a port group, after its mark.
fn put_group_name(out: &mut Vec<u8>, name: &[u8]) -> Result<(), OutOfMemory>
    ensures ok { OnOk result (out.new.items ≡ out.old.items ++ item_text (Group name.now)) }
    ensures err { OnErr result (GrowsAtEnd out.old.items out.new.items) }
{
    out.extend_from_slice(b"@")?;
    out.extend_from_slice(name)?;
    Ok(())
}

fn put_item(out: &mut Vec<u8>, item: &Item) -> Result<(), OutOfMemory>
    ensures ok { OnOk result (out.new.items ≡ out.old.items ++ item_text item.now) }
    ensures err { OnErr result (GrowsAtEnd out.old.items out.new.items) }
{
    match item {
        Item::One(constant) => put_const(out, *constant),
        Item::Masked(constant, mask) => put_masked(out, *constant, *mask),
        Item::Text(name) => put_quoted(out, name.as_slice()),
        Item::AddrSet(name) => put_set_name(out, name.as_slice()),
        Item::Group(name) => put_group_name(out, name.as_slice()),
    }
}

// Items with `, ` between.
fn put_items(out: &mut Vec<u8>, items: &[Item]) -> Result<(), OutOfMemory>
    ensures ok { OnOk result (out.new.items ≡ out.old.items ++ items_text [] items.now) }
    ensures err { OnErr result (GrowsAtEnd out.old.items out.new.items) }
{
    let mut front = b"".as_slice();
    for item in items {
        out.extend_from_slice(front)?;
        put_item(out, item)?;
        front = b", ".as_slice();
    }
    Ok(())
}

// Items in braces.
fn put_set(out: &mut Vec<u8>, items: &[Item]) -> Result<(), OutOfMemory>
    ensures ok { OnOk result (out.new.items ≡ out.old.items ++ codes "{" ++ items_text [] items.now ++ codes "}") }
    ensures err { OnErr result (GrowsAtEnd out.old.items out.new.items) }
{
    out.extend_from_slice(b"{")?;
    put_items(out, items)?;
    out.extend_from_slice(b"}")?;
    Ok(())
}

fn put_right(out: &mut Vec<u8>, right: &Right) -> Result<(), OutOfMemory>
    ensures ok { OnOk result (out.new.items ≡ out.old.items ++ right_text right.now) }
    ensures err { OnErr result (GrowsAtEnd out.old.items out.new.items) }
{
    match right {
        Right::Item(item) => put_item(out, item),
        Right::Set(items) => put_set(out, items.as_slice()),
    }
}

/// Appends a relation and its right side.
pub(super) fn put_relation(out: &mut Vec<u8>, rel: Rel, right: &Right) -> Result<(), OutOfMemory>
    ensures ok { OnOk result (out.new.items ≡ out.old.items ++ relation_text rel right.now) }
    ensures err { OnErr result (GrowsAtEnd out.old.items out.new.items) }
{
    out.extend_from_slice(rel_text(rel).as_bytes())?;
    put_right(out, right)?;
    Ok(())
}
