//! When two trees are equal by `==`.
ghost use Rattle.std.specs.Prelude.{◌≡◌};
ghost use Rattle.expr_core.specs.Equal.{formula_eq, formulas_eq};
ghost use Rattle.expr_core.specs.Formula.{formulas};

use crate::{Node, Tree};

// As many operands, equal in their order.
#[cycle(same)]
fn same_operands<A: PartialEq>(ones: &[Tree<A>], others: &[Tree<A>]) -> bool
    ensures { result ≡ formulas_eq A.eq (formulas ones.now) (formulas others.now) }
{
    if ones.len() != others.len() {
        return false;
    }
    for (one, other) in ones.iter().zip(others) {
        if !same(one, other) {
            return false;
        }
    }
    true
}

// Of one shape, whose atoms are equal in their order.
#[cycle(same)]
fn same<A: PartialEq>(one: &Tree<A>, other: &Tree<A>) -> bool
    ensures { result ≡ formula_eq A.eq one.now other.now }
{
    match (&one.node, &other.node) {
        (Node::Atom(one), Node::Atom(other)) => one == other,
        (Node::Not(one), Node::Not(other)) => same(one, other),
        (Node::And(ones), Node::And(others)) => same_operands(ones, others),
        (Node::Or(ones), Node::Or(others)) => same_operands(ones, others),
        _ => false,
    }
}

impl<A: PartialEq> PartialEq for Tree<A> {
    ghost use Rattle.expr_core.specs.Equal.{formula_eq};
    ghost use Rattle.expr_core.specs.inner.EqualLaws.{formula_per};

    ghost eq = { λ a b. formula_eq A.eq a b };

    ghost laws = { formula_per A.laws };

    fn eq(&self, other: &Self) -> bool {
        same(self, other)
    }
}

impl<A: Eq> Eq for Tree<A> {
    ghost use Rattle.expr_core.specs.inner.EqualLaws.{formula_equiv};

    ghost laws = { formula_equiv A.Eq.laws };
}
