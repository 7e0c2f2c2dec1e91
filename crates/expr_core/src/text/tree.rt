ghost use Rattle.std.specs.Prelude.{◌≡◌, [], ◌++◌, OnOk, OnErr};
ghost use Rattle.nv_base.specs.Growth.{GrowsAtEnd};
ghost use Rattle.expr_core.specs.Formula.{formulas};
ghost use Rattle.expr_core.specs.Text.{needs_parentheses, is_joined, enclosed, formula_text, operands_text};

use crate::{Node, Tree, TreeAtom};
use nv_base::OutOfMemory;

// Whether `!` negates it only in parentheses.
fn needs_parentheses<A: TreeAtom>(operand: &Tree<A>) -> bool
    ensures { result ≡ needs_parentheses A.writing operand.now }
{
    match &operand.node {
        Node::Atom(atom) => atom.is_comparison(),
        Node::Not(_) => false,
        Node::And(_) | Node::Or(_) => true,
    }
}

// Whether an operator joins two or more in it.
fn is_joined<A>(operand: &Tree<A>) -> bool
    ensures { result ≡ is_joined operand.now }
{
    matches!(operand.node, Node::And(_) | Node::Or(_))
}

// An operand after what is written before it, in parentheses where it needs them.
#[cycle(put_tree)]
fn put_enclosed<A: TreeAtom>(
    out: &mut Vec<u8>,
    front: &[u8],
    parentheses: bool,
    operand: &Tree<A>,
) -> Result<(), OutOfMemory>
    ensures ok { OnOk result (out.new.items ≡ out.old.items ++ front.now ++ enclosed parentheses (formula_text A.writing operand.now)) }
    ensures err { OnErr result (GrowsAtEnd out.old.items out.new.items) }
{
    out.extend_from_slice(front)?;
    if parentheses {
        out.push(b'(')?;
        put_tree(out, operand)?;
        out.push(b')')?;
    } else {
        put_tree(out, operand)?;
    }
    Ok(())
}

// Operands with an operator between.
#[cycle(put_tree)]
fn put_operands<A: TreeAtom>(
    out: &mut Vec<u8>,
    operator: &[u8],
    operands: &[Tree<A>],
) -> Result<(), OutOfMemory>
    ensures ok { OnOk result (out.new.items ≡ out.old.items ++ operands_text A.writing [] operator.now (formulas operands.now)) }
    ensures err { OnErr result (GrowsAtEnd out.old.items out.new.items) }
{
    let mut front = b"".as_slice();
    for operand in operands {
        put_enclosed(out, front, is_joined(operand), operand)?;
        front = operator;
    }
    Ok(())
}

/// Appends the canonical text of a match: one space round relations, `&&` and `||`, `, ` in sets, and parentheses only
/// where they are needed. After `OutOfMemory` more bytes may follow what was there.
#[cycle(put_tree)]
pub fn put_tree<A: TreeAtom>(out: &mut Vec<u8>, tree: &Tree<A>) -> Result<(), OutOfMemory>
    ensures ok { OnOk result (out.new.items ≡ out.old.items ++ formula_text A.writing tree.now) }
    ensures err { OnErr result (GrowsAtEnd out.old.items out.new.items) }
{
    match &tree.node {
        Node::Atom(atom) => atom.put(out),
        Node::Not(operand) => put_enclosed(out, b"!", needs_parentheses(operand), operand),
        Node::And(operands) => put_operands(out, b" && ", operands),
        Node::Or(operands) => put_operands(out, b" || ", operands),
    }
}
