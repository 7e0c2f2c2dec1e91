ghost use Rattle.std.specs.Prelude.{◌≡◌, false, Ok, Err, IfOk, IfErr};
ghost use Rattle.expr_check.specs.Check.{alone, comparison, mapped, checked_bare, checked_comparison, checked_atom, checked, all_checked, is_memory};
ghost use Rattle.expr_core.specs.Formula.{formulas};
ghost use Rattle.expr_core.specs.Subject.{subject_of};

use crate::rules::{bits_fit, is_allowed, may_be_compared, may_stand_alone, right_fits, width_of};
use crate::{Role, TypeFault};
use expr_core::{
    Atom, Bits, Expr, Node, Part, Rel, Right, Subject, Tree, Typed, TypedAtom, subject_of,
};
use nv_base::{Items, Kept, OutOfMemory};
use std::alloc::Global;

// A part of this subject alone.
fn alone(subject: Subject, bits: Bits) -> TypedAtom
    ensures { result ≡ alone subject bits }
{
    match subject {
        Subject::Field(field) => TypedAtom::Bare(field, bits),
        Subject::Pred(predicate) => TypedAtom::Holds(predicate),
    }
}

fn check_bare(role: Role, part: &Part) -> Result<TypedAtom, TypeFault>
    ensures { result ≡ checked_bare role part.now (subject_of part.now.name) }
{
    let Some(subject) = subject_of(part.name.as_slice()) else {
        return Err(TypeFault::UnknownField(part.offset));
    };
    if !is_allowed(role, subject) {
        Err(TypeFault::NotAllowedHere(part.offset))
    } else if !bits_fit(width_of(subject), part.bits) {
        Err(TypeFault::WrongWidth(part.offset))
    } else if !may_stand_alone(subject, part.bits) {
        Err(TypeFault::WrongForm(part.offset))
    } else {
        Ok(alone(subject, part.bits))
    }
}

// The field of a comparison that the rules allow.
fn check_compared(role: Role, part: &Part, rel: Rel, right: &Right) -> Result<Subject, TypeFault>
    ensures { mapped (λ s. comparison s part.now.bits rel right.now) result ≡ checked_comparison role part.now rel right.now (subject_of part.now.name) }
{
    let Some(subject) = subject_of(part.name.as_slice()) else {
        return Err(TypeFault::UnknownField(part.offset));
    };
    let width = width_of(subject);
    if !is_allowed(role, subject) {
        Err(TypeFault::NotAllowedHere(part.offset))
    } else if !(bits_fit(width, part.bits) && right_fits(width, part.bits, right)) {
        Err(TypeFault::WrongWidth(part.offset))
    } else if !may_be_compared(subject, part.bits, rel, right) {
        Err(TypeFault::WrongForm(part.offset))
    } else {
        Ok(subject)
    }
}

// The comparison of a part of this subject.
fn compared(
    alloc: Global,
    subject: Subject,
    bits: Bits,
    rel: Rel,
    right: &Right,
) -> Result<TypedAtom, OutOfMemory>
    ensures { IfOk result (λ atom. atom ≡ comparison subject bits rel right.now) }
{
    match subject {
        Subject::Field(field) => Ok(TypedAtom::Compare(field, bits, rel, right.copy(alloc)?)),
        Subject::Pred(predicate) => Ok(TypedAtom::Holds(predicate)),
    }
}

fn check_atom(alloc: Global, role: Role, atom: &Atom) -> Result<TypedAtom, TypeFault>
    ensures atom { IfOk result (λ t. checked_atom role atom.now ≡ Ok t) }
    ensures fault { IfErr result (λ f. is_memory f ≡ false → checked_atom role atom.now ≡ Err f) }
{
    match atom {
        Atom::Truth(holds) => Ok(TypedAtom::Truth(*holds)),
        Atom::Bare(part) => check_bare(role, part),
        Atom::Compare(part, rel, right) => {
            let subject = check_compared(role, part, *rel, right)?;
            Ok(compared(alloc, subject, part.bits, *rel, right)?)
        }
    }
}

#[cycle(check)]
fn check_all(alloc: Global, operands: &[Expr], role: Role) -> Result<Vec<Typed>, TypeFault>
    ensures typed { IfOk result (λ ts. all_checked role (formulas operands.now) ≡ Ok (formulas ts.items)) }
    ensures fault { IfErr result (λ f. is_memory f ≡ false → all_checked role (formulas operands.now) ≡ Err f) }
{
    let mut checked = Items::new(alloc);
    for operand in operands {
        checked.push(check(alloc, operand, role)?)?;
    }
    Ok(checked.into_items())
}

/// The match with fields and predicates in place of names, or the first fault from the left: of one part, first that
/// its name is unknown, then that it may not be asked for in this role, then a width, then a form. After `Memory`
/// nothing is said of the match.
#[cycle(check)]
pub fn check(alloc: Global, expr: &Expr, role: Role) -> Result<Typed, TypeFault>
    ensures typed { IfOk result (λ t. checked role expr.now ≡ Ok t) }
    ensures fault { IfErr result (λ f. is_memory f ≡ false → checked role expr.now ≡ Err f) }
{
    Ok(match &expr.node {
        Node::Atom(atom) => Tree::atom(check_atom(alloc, role, atom)?),
        Node::Not(operand) => Tree::negation(alloc, check(alloc, operand, role)?)?,
        Node::And(operands) => Tree {
            node: Node::And(check_all(alloc, operands, role)?),
        },
        Node::Or(operands) => Tree {
            node: Node::Or(check_all(alloc, operands, role)?),
        },
    })
}
