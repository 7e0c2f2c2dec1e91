//! The cubes of a match.
ghost use Rattle.std.specs.Prelude.{◌≡◌, Some, None, IfOk, IfErr, false};
ghost use Rattle.pkt_core.specs.Packet.{Values, IsPacket};
ghost use Rattle.expr_core.specs.Formula.{formulas};
ghost use Rattle.expr_core.specs.WellTyped.{IsTyped};
ghost use Rattle.expr_core.specs.declared.role.Role.{Role};
ghost use Rattle.expr_eval.specs.MatchMeaning.{holds};
ghost use Rattle.expr_sets.specs.Members.{AreOf};
ghost use Rattle.cube_core.specs.Cube.{cover};
ghost use Rattle.cube_core.specs.Cubes.{names_of, atom_cubes, match_cubes, operand_cubes};
ghost use Rattle.cube_core.specs.Limit.{join_all};
ghost use Rattle.cube_core.specs.declared.fault.CubeFault.TheVariants.{Limit};
ghost use Rattle.cube_core.specs.inner.Answers.{IsAnswer};

use crate::items::{compared_cubes, number_cubes, predicate_cubes, turned};
use crate::join::{join_one, joined_none};
use crate::{Cube, CubeFault};
use expr_core::{Node, Rel, Typed, TypedAtom};
use expr_sets::SetMembers;
use nv_base::Items;
use std::alloc::Global;

// The cubes of an atom, or of its negation.
fn atom_cubes<E: SetMembers>(
    alloc: Global,
    env: &E,
    negated: bool,
    atom: &TypedAtom,
) -> Result<Items<Cube>, CubeFault>
    ensures { IsAnswer (atom_cubes (names_of (E.lookup env.now) (E.members env.now)) negated atom.now) result }
{
    match atom {
        TypedAtom::Truth(holds) => Ok(joined_none(alloc, *holds != negated)?),
        TypedAtom::Bare(field, bits) => {
            number_cubes(alloc, *field, *bits, turned(negated, Rel::Eq), 1)
        }
        TypedAtom::Holds(predicate) => predicate_cubes(alloc, negated, *predicate),
        TypedAtom::Compare(field, bits, rel, right) => {
            let rel = turned(negated, *rel);
            compared_cubes(alloc, env, *field, *bits, rel, right)
        }
    }
}

// The cubes of a match, or of its negation.
#[cycle(match_cubes)]
fn match_cubes<E: SetMembers>(
    alloc: Global,
    env: &E,
    negated: bool,
    typed: &Typed,
) -> Result<Items<Cube>, CubeFault>
    ensures { IsAnswer (match_cubes (names_of (E.lookup env.now) (E.members env.now)) negated typed.now) result }
{
    match &typed.node {
        Node::Atom(atom) => atom_cubes(alloc, env, negated, atom),
        Node::Not(operand) => match_cubes(alloc, env, !negated, operand),
        Node::And(operands) => joined_operands(alloc, env, negated, !negated, operands),
        Node::Or(operands) => joined_operands(alloc, env, negated, negated, operands),
    }
}

// The conjunction or the disjunction of the lists of matches, or of their negations.
#[cycle(match_cubes)]
fn joined_operands<E: SetMembers>(
    alloc: Global,
    env: &E,
    negated: bool,
    is_and: bool,
    operands: &[Typed],
) -> Result<Items<Cube>, CubeFault>
    ensures { IsAnswer (join_all is_and (operand_cubes (names_of (E.lookup env.now) (E.members env.now)) negated (formulas operands.now))) result }
{
    let mut sofar = joined_none(alloc, is_and)?;
    for operand in operands {
        let cubes = match_cubes(alloc, env, negated, operand)?;
        sofar = join_one(alloc, is_and, sofar, cubes.as_slice())?;
    }
    Ok(sofar)
}

/// The packets of which the match holds, as a list of cubes, where names, sets and groups are what `env` says. `Limit`
/// comes where the list of a match in it has more than 65,536 cubes, or what the first operands of one, or the first
/// numbers of a comparison, make. It is not from OVN.
pub fn cubes<E: SetMembers>(alloc: Global, typed: &Typed, env: &E) -> Result<Vec<Cube>, CubeFault>
    ensures list { IfOk result (λ list. match_cubes (names_of (E.lookup env.now) (E.members env.now)) false typed.now ≡ Some list.items) }
    ensures limit { IfErr result (λ fault. fault ≡ Limit
        → match_cubes (names_of (E.lookup env.now) (E.members env.now)) false typed.now ≡ None) }
    ensures covers { IfOk result (λ list. (role : Role) (packet : Values) → IsTyped role typed.now → AreOf (E.lookup env.now) (E.members env.now)
        → IsPacket packet → cover list.items packet ≡ holds (E.lookup env.now) packet typed.now) }
{
    let list = match_cubes(alloc, env, false, typed)?;
    Ok(list.into_items())
}
