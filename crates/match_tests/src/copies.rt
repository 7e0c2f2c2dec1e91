// That matches can be copied, and that two are equal whatever the offsets of their parts.
use crate::holding::{parsed, typed};
use expr_core::{Atom, Expr, Node, Tree, TreeAtom};
use std::alloc::Global;
use std::test::Fail;

// Whether the copy of a match is equal to it.
fn is_copied<A: TreeAtom + PartialEq + Drop>(alloc: Global, tree: &Tree<A>) -> Result<bool, Fail> {
    Ok(tree.copy(alloc)? == *tree)
}

// Whether the copy of the match that the text is, as it was read, is equal to it.
fn is_copied_as_read(alloc: Global, text: &str) -> Result<bool, Fail> {
    is_copied(alloc, &parsed(alloc, text)?)
}

// Whether the copy of the checked match is equal to it.
fn is_copied_as_checked(alloc: Global, text: &str) -> Result<bool, Fail> {
    is_copied(alloc, &typed(alloc, text)?)
}

const TEXTS: [&str; 3] = [
    "inport == @g",
    "tcp.dst != {1, 2} && !(arp || ip4.src == $s)",
    "eth.dst[40] || ip4.dst[28..31] == 0xe || inport == \"p\" || ip4.src == 10.0.0.0/8",
];

#[test]
fn copies_are_equal(rt: HostRuntime) -> Result<(), Fail> {
    for text in TEXTS {
        assert!(rt; is_copied_as_read(rt.alloc(), text)?, "{text}");
    }
    Ok(())
}

#[test]
fn copies_of_checked_matches_are_equal(rt: HostRuntime) -> Result<(), Fail> {
    for text in TEXTS {
        assert!(rt; is_copied_as_checked(rt.alloc(), text)?, "{text}");
    }
    Ok(())
}

// The offset of the copy of a part that is a match.
fn offset_of_copy(alloc: Global, expr: &Expr) -> Result<u32, Fail> {
    match &expr.node {
        Node::Atom(Atom::Bare(part)) => Ok(part.copy(alloc)?.offset),
        _ => Err(Fail::new("not a part")),
    }
}

// The offset of the copy of the part that the text is.
fn offset_of_text(alloc: Global, text: &str) -> Result<u32, Fail> {
    let expr = parsed(alloc, text)?;
    offset_of_copy(alloc, &expr)
}

#[test]
fn an_atom_is_copied_at_its_offset(rt: HostRuntime) -> Result<(), Fail> {
    assert!(rt; offset_of_text(rt.alloc(), "   tcp")? == 3);
    Ok(())
}

// Whether the text is this match.
fn is_text_of(alloc: Global, expr: &Expr, text: &str) -> Result<bool, Fail> {
    Ok(*expr == parsed(alloc, text)?)
}

// Whether two texts are one match.
fn are_one(alloc: Global, first: &str, second: &str) -> Result<bool, Fail> {
    let expr = parsed(alloc, first)?;
    is_text_of(alloc, &expr, second)
}

#[test]
fn offsets_do_not_count(rt: HostRuntime) -> Result<(), Fail> {
    for (text, expected) in [
        ("  ip4&&( arp )", true),
        ("ip6 && arp", false),
        ("ip4 || arp", false),
        ("ip4 && arp && 1", false),
        ("!ip4", false),
        ("ip4", false),
    ] {
        assert!(rt;
            are_one(rt.alloc(), "ip4 && arp", text)? == expected,
            "{text}"
        );
    }
    Ok(())
}
