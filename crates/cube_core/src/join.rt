//! Lists of cubes that are not too long.
ghost use Rattle.std.specs.Prelude.{◌≡◌, ◌∷◌, [], ◌≤◌, false, length, IfOk};
ghost use Rattle.cube_core.specs.Limit.{cube_limit, meets, products, limited, joined, joined_none};
ghost use Rattle.cube_core.specs.inner.Answers.{IsAnswer, Adds};

use crate::{Cube, CubeFault};
use nv_base::{Items, OutOfMemory};
use std::alloc::Global;

// The most cubes that a list may have.
const CUBE_LIMIT: usize = 65536;

/// Puts a cube last, where the list is not too long then.
pub(crate) fn add(list: &mut Items<Cube>, cube: Cube) -> Result<(), CubeFault>
    requires { length list.old ≤ cube_limit }
    ensures { Adds list.old (cube ∷ []) list.new result }
{
    if list.as_slice().len() == CUBE_LIMIT {
        return Err(CubeFault::Limit);
    }
    list.push(cube)?;
    Ok(())
}

// Puts last what two cubes have in common, where they share a packet.
fn add_meet(list: &mut Items<Cube>, cube: &Cube, other: &Cube) -> Result<(), CubeFault>
    requires { length list.old ≤ cube_limit }
    ensures { Adds list.old (meets (other.now ∷ []) cube.now) list.new result }
{
    if cube.shares(other) {
        add(list, cube.meet(other))
    } else {
        Ok(())
    }
}

// Puts last what a cube has in common with each of others.
fn add_meets(list: &mut Items<Cube>, cube: &Cube, others: &[Cube]) -> Result<(), CubeFault>
    requires { length list.old ≤ cube_limit }
    ensures { Adds list.old (meets others.now cube.now) list.new result }
{
    for other in others {
        add_meet(list, cube, other)?;
    }
    Ok(())
}

// What the cubes of one list have in common with those of another.
fn products(alloc: Global, ones: &[Cube], others: &[Cube]) -> Result<Items<Cube>, CubeFault>
    ensures { IsAnswer (limited (products ones.now others.now)) result }
{
    let mut list = Items::new(alloc);
    for one in ones {
        add_meets(&mut list, one, others)?;
    }
    Ok(list)
}

// The cubes of one list and then of another.
fn sums(mut list: Items<Cube>, more: &[Cube]) -> Result<Items<Cube>, CubeFault>
    requires { length list ≤ cube_limit }
    ensures { IsAnswer (limited (joined false list more.now)) result }
{
    for cube in more {
        add(&mut list, *cube)?;
    }
    Ok(list)
}

/// The list of a conjunction or of a disjunction of none.
pub(crate) fn joined_none(alloc: Global, is_and: bool) -> Result<Items<Cube>, OutOfMemory>
    ensures { IfOk result (λ list. list ≡ joined_none is_and) }
{
    let mut list = Items::new(alloc);
    if is_and {
        list.push(Cube::everything())?;
    }
    Ok(list)
}

/// A list more of a conjunction or of a disjunction.
pub(crate) fn join_one(
    alloc: Global,
    is_and: bool,
    sofar: Items<Cube>,
    more: &[Cube],
) -> Result<Items<Cube>, CubeFault>
    requires { length sofar ≤ cube_limit }
    ensures { IsAnswer (limited (joined is_and sofar more.now)) result }
{
    if is_and {
        products(alloc, sofar.as_slice(), more)
    } else {
        sums(sofar, more)
    }
}
