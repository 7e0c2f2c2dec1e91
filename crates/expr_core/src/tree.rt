ghost use Rattle.std.specs.Prelude.{◌≡◌, ◌≤◌, length, IfOk};
ghost use Rattle.expr_core.specs.Formula.{formulas};
ghost use Rattle.expr_core.specs.Formula.Formula.{Leaf, Not, And, Or};

use crate::{Atom, TreeAtom, TypedAtom};
use nv_base::{Items, OutOfMemory};
use std::alloc::Global;
use std::marker::Model;

/// A formula over atoms. A clause sees it as the formula.
#[cycle(tree)]
#[derive(Drop)]
pub struct Tree<A> {
    /// What it is.
    pub node: Node<A>,
}

/// What a formula is.
#[cycle(tree)]
#[derive(Drop)]
pub enum Node<A> {
    /// One atom.
    Atom(A),
    /// The negation of a formula.
    Not(Box<Tree<A>>),
    /// Two or more, all of which hold.
    And(Vec<Tree<A>>),
    /// Two or more, one of which holds.
    Or(Vec<Tree<A>>),
}

/// A match as it was read. Two are equal by `==` whatever the offsets of their parts, so it is not `Kept`.
pub type Expr = Tree<Atom>;

/// A match that met a check, with fields in place of names.
pub type Typed = Tree<TypedAtom>;

impl<A> Model for Tree<A> {
    ghost use Rattle.expr_core.specs.Formula.{Formula};
    ghost use Rattle.expr_core.specs.inner.FormulaCode.{formula_code, formula_size};

    ghost Value = { Formula A };

    ghost coded = { formula_code A.code };

    ghost use Rattle.expr_core.specs.Tree.{tree_formula};

    ghost view = { λ t. tree_formula t.node };

    ghost size = { formula_size };

    ghost use Rattle.expr_core.specs.inner.TreeFalls.{falls};

    ghost size_decreases = { λ t h. falls A t.node };
}

impl<A> Tree<A> {
    /// One atom.
    pub fn atom(atom: A) -> Self
        ensures { result ≡ Leaf atom }
    {
        Tree {
            node: Node::Atom(atom),
        }
    }

    /// The negation of a formula. Where memory runs out the answer is `OutOfMemory`.
    pub fn negation(alloc: Global, operand: Tree<A>) -> Result<Self, OutOfMemory>
    where
        A: Drop,
        ensures { IfOk result (λ t. t ≡ Not operand) }
    {
        Ok(Tree {
            node: Node::Not(Box::new(alloc, operand)?),
        })
    }

    /// Two or more formulas, all of which hold. A conjunction among them stays one operand.
    pub fn conjunction(operands: Items<Tree<A>>) -> Self
        requires { 2 ≤ length operands }
        ensures { result ≡ And (formulas operands) }
    {
        Tree {
            node: Node::And(operands.into_items()),
        }
    }

    /// Two or more formulas, one of which holds. A disjunction among them stays one operand.
    pub fn disjunction(operands: Items<Tree<A>>) -> Self
        requires { 2 ≤ length operands }
        ensures { result ≡ Or (formulas operands) }
    {
        Tree {
            node: Node::Or(operands.into_items()),
        }
    }
}

impl<A: TreeAtom + Drop> Tree<A> {
    /// The same formula. Where memory runs out the answer is `OutOfMemory`.
    pub fn copy(&self, alloc: Global) -> Result<Self, OutOfMemory>
        ensures { IfOk result (λ copied. copied ≡ self.now) }
    {
        copy_tree(alloc, self)
    }
}

// The same formula.
#[cycle(copy_tree)]
pub(crate) fn copy_tree<A: TreeAtom + Drop>(
    alloc: Global,
    tree: &Tree<A>,
) -> Result<Tree<A>, OutOfMemory>
    ensures { IfOk result (λ copied. copied ≡ tree.now) }
{
    let node = match &tree.node {
        Node::Atom(atom) => Node::Atom(atom.copy_atom(alloc)?),
        Node::Not(operand) => Node::Not(Box::new(alloc, copy_tree(alloc, operand)?)?),
        Node::And(operands) => Node::And(copy_operands(alloc, operands)?),
        Node::Or(operands) => Node::Or(copy_operands(alloc, operands)?),
    };
    Ok(Tree { node })
}

// The same operands.
#[cycle(copy_tree)]
fn copy_operands<A: TreeAtom + Drop>(
    alloc: Global,
    operands: &[Tree<A>],
) -> Result<Vec<Tree<A>>, OutOfMemory>
    ensures { IfOk result (λ copied. copied.items ≡ operands.now) }
{
    let mut copied = Items::new(alloc);
    for operand in operands {
        copied.push(copy_tree(alloc, operand)?)?;
    }
    Ok(copied.into_items())
}
