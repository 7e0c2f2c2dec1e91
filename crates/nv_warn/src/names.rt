//! The names in a match.
use expr_core::{Item, Node, Right, Tree, Typed, TypedAtom};
use nb_store::Records;
use nv_base::{Name, OutOfMemory};
use std::alloc::Global;

/// A name in a match, by what it is of.
#[derive(Clone, Copy)]
pub(crate) enum Named<'m> {
    Port(&'m Name),
    Set(&'m Name),
    Group(&'m Name),
}

// Appends the name of an item, where it is one.
fn add_item<'m>(found: &mut Vec<Named<'m>>, item: &'m Item) -> Result<(), OutOfMemory> {
    match item {
        Item::One(_) | Item::Masked(_, _) => {}
        Item::Text(name) => found.push(Named::Port(name))?,
        Item::AddrSet(name) => found.push(Named::Set(name))?,
        Item::Group(name) => found.push(Named::Group(name))?,
    }
    Ok(())
}

fn add_items<'m>(found: &mut Vec<Named<'m>>, items: &'m [Item]) -> Result<(), OutOfMemory> {
    for item in items {
        add_item(found, item)?;
    }
    Ok(())
}

fn add_atom<'m>(found: &mut Vec<Named<'m>>, atom: &'m TypedAtom) -> Result<(), OutOfMemory> {
    match atom {
        TypedAtom::Compare(_, _, _, Right::Item(item)) => add_item(found, item),
        TypedAtom::Compare(_, _, _, Right::Set(items)) => add_items(found, items.as_slice()),
        _ => Ok(()),
    }
}

#[cycle(add_tree)]
fn add_tree<'m>(found: &mut Vec<Named<'m>>, tree: &'m Tree<TypedAtom>) -> Result<(), OutOfMemory> {
    match &tree.node {
        Node::Atom(atom) => add_atom(found, atom),
        Node::Not(operand) => add_tree(found, operand),
        Node::And(operands) => add_operands(found, operands),
        Node::Or(operands) => add_operands(found, operands),
    }
}

#[cycle(add_tree)]
fn add_operands<'m>(
    found: &mut Vec<Named<'m>>,
    operands: &'m [Tree<TypedAtom>],
) -> Result<(), OutOfMemory> {
    for operand in operands {
        add_tree(found, operand)?;
    }
    Ok(())
}

/// The names in a match, in their order.
pub(crate) fn names_in<'m>(
    alloc: Global,
    matching: &'m Typed,
) -> Result<Vec<Named<'m>>, OutOfMemory> {
    let mut found = Vec::new(alloc);
    add_tree(&mut found, matching)?;
    Ok(found)
}

// Whether the name is that of a set of the addresses of a group.
fn is_of_group(alloc: Global, records: &Records, name: &Name) -> Result<bool, OutOfMemory> {
    match name.as_slice().strip_suffix(b"_ip4") {
        Some(group) => {
            let group = Name::from_slice(alloc, group)?;
            Ok(records.group_named(&group).is_some())
        }
        None => Ok(false),
    }
}

impl<'m> Named<'m> {
    /// The name.
    pub(crate) fn name(&self) -> &'m Name {
        match self {
            Named::Port(name) | Named::Set(name) | Named::Group(name) => name,
        }
    }

    /// The sign before it in a match.
    pub(crate) fn sign(&self) -> u8 {
        match self {
            Named::Port(_) => b'"',
            Named::Set(_) => b'$',
            Named::Group(_) => b'@',
        }
    }

    /// Whether the network has what it names. The names of multicast groups, which begin with `_MC_`, are those of no ports.
    pub(crate) fn is_there(&self, alloc: Global, records: &Records) -> Result<bool, OutOfMemory> {
        match self {
            Named::Port(name) => {
                Ok(name.as_slice().starts_with(b"_MC_") || records.port_of(name).is_some())
            }
            Named::Set(name) if records.set_named(name).is_some() => Ok(true),
            Named::Set(name) => is_of_group(alloc, records, name),
            Named::Group(name) => Ok(records.group_named(name).is_some()),
        }
    }
}
