// What no clause says: that a tree stays flat, in whatever order its keys come and go, and that calls can succeed.
ghost use Rattle.std.specs.Prelude.{◌<◌};

use nv_base::{Name, ObjId, OutOfMemory};
use nv_map::{Entry, Map};
use std::alloc::Global;
use std::test::Fail;

const COUNT: u32 = 100_000;

// An AVL tree of 100,000 entries has no more.
const MOST_LEVELS: usize = 24;

#[derive(Clone, Copy)]
enum Order {
    Rising,
    Falling,
    Mixed,
}

// Each key below 100,000 once.
fn key_at(order: Order, place: u32) -> u32
    requires { place < 100000 }
{
    match order {
        Order::Rising => place,
        Order::Falling => COUNT - 1 - place,
        Order::Mixed => place * 7_919 % COUNT,
    }
}

// Puts an entry in, and tells whether its key was new.
fn put(map: &mut Map<u32, u32>, alloc: Global, key: u32, value: u32) -> Result<bool, OutOfMemory> {
    let entry = Entry::new(alloc, key, value)?;
    if map.get(&key).is_some() {
        return Ok(false);
    }
    map.put(entry);
    Ok(true)
}

// Whether the keys are 0 and on, `count` of them, and the value of each is a third of it.
fn has_thirds(map: &Map<u32, u32>, count: u32) -> bool {
    let mut last = None;
    for key in 0..count {
        match map.first_after(last.as_ref()) {
            Some((found, value)) if *found == key && *value == key / 3 => last = Some(key),
            _ => return false,
        }
    }
    map.first_after(last.as_ref()).is_none()
}

// Whether the key was there, with a third of it.
fn took_third(map: &mut Map<u32, u32>, key: u32) -> bool {
    match map.take(&key) {
        Some(entry) => entry.into_parts() == (key, key / 3),
        None => false,
    }
}

// Puts each key below 100,000 in, with a third of it, and tells whether each was new.
fn put_thirds(map: &mut Map<u32, u32>, alloc: Global, order: Order) -> Result<bool, OutOfMemory> {
    for place in 0..COUNT {
        let key = key_at(order, place);
        if !put(map, alloc, key, key / 3)? {
            return Ok(false);
        }
    }
    Ok(true)
}

// Takes each key out, and tells whether each was there, and the tree was flat all the while.
fn stays_flat_to_its_end(map: &mut Map<u32, u32>) -> bool {
    for place in 0..COUNT {
        if !took_third(map, place * 3_331 % COUNT) {
            return false;
        }
        if place % 10_000 == 0 && map.levels() > MOST_LEVELS {
            return false;
        }
    }
    map.is_empty()
}

fn stays_flat(map: &mut Map<u32, u32>, alloc: Global, order: Order) -> Result<bool, OutOfMemory> {
    Ok(
        put_thirds(map, alloc, order)?
            && map.levels() <= MOST_LEVELS
            && has_thirds(map, COUNT)
            && stays_flat_to_its_end(map),
    )
}

fn keys_stay_flat(alloc: Global, order: Order) -> Result<bool, OutOfMemory> {
    let mut map = Map::new();
    stays_flat(&mut map, alloc, order)
}

#[test]
fn trees_stay_flat(rt: HostRuntime) -> Result<(), Fail> {
    assert!(rt; keys_stay_flat(rt.alloc(), Order::Rising)?);
    assert!(rt; keys_stay_flat(rt.alloc(), Order::Falling)?);
    assert!(rt; keys_stay_flat(rt.alloc(), Order::Mixed)?);
    Ok(())
}

// Takes all keys from 1,000 on out, the last one first, and tells whether each was there.
fn took_one_side(map: &mut Map<u32, u32>) -> bool {
    for key in 0..COUNT - 1_000 {
        if !took_third(map, COUNT - 1 - key) {
            return false;
        }
    }
    true
}

// Whether the first 1,000 keys have their thirds, also after one of them is put in again.
fn keeps_the_other_side(map: &mut Map<u32, u32>, alloc: Global) -> Result<bool, OutOfMemory> {
    Ok(
        map.levels() <= 14
            && has_thirds(map, 1_000)
            && !put(map, alloc, 7, 8)?
            && has_thirds(map, 1_000),
    )
}

fn leaves_the_other_flat(map: &mut Map<u32, u32>, alloc: Global) -> Result<bool, OutOfMemory> {
    Ok(
        put_thirds(map, alloc, Order::Rising)?
            && took_one_side(map)
            && keeps_the_other_side(map, alloc)?,
    )
}

#[test]
fn one_side_taken_leaves_the_other_flat(rt: HostRuntime) -> Result<(), Fail> {
    let mut map = Map::new();
    assert!(rt; leaves_the_other_flat(&mut map, rt.alloc())?);
    Ok(())
}

fn put_name(
    names: &mut Map<Name, ObjId>,
    alloc: Global,
    name: &[u8],
    number: ObjId,
) -> Result<(), OutOfMemory> {
    let entry = Entry::new(alloc, Name::from_slice(alloc, name)?, number)?;
    if names.get(entry.key()).is_none() {
        names.put(entry);
    }
    Ok(())
}

// The names `lp1`, `lp2` and `lp10`, each with its number.
fn put_three_names(names: &mut Map<Name, ObjId>, alloc: Global) -> Result<(), OutOfMemory> {
    put_name(names, alloc, b"lp2", ObjId(2))?;
    put_name(names, alloc, b"lp10", ObjId(10))?;
    put_name(names, alloc, b"lp1", ObjId(1))
}

// The number of the name becomes another one; what it was.
fn exchanged(names: &mut Map<Name, ObjId>, name: &Name, number: ObjId) -> Option<ObjId> {
    if names.get(name).is_none() {
        return None;
    }
    Some(names.exchange(name, number))
}

// The name after this one, or the first one, has these bytes and this number.
fn is_after(names: &Map<Name, ObjId>, name: Option<&Name>, bytes: &[u8], number: ObjId) -> bool {
    match names.first_after(name) {
        Some((found, value)) => found.as_slice() == bytes && *value == number,
        None => false,
    }
}

// The entry of the name was there, is not once it is taken out, and is put in again. Its number, if so.
fn taken_and_put(names: &mut Map<Name, ObjId>, name: &Name) -> Option<ObjId> {
    match names.take(name) {
        Some(entry) if names.get(name).is_none() && names.get(entry.key()).is_none() => {
            let number = *entry.value();
            names.put(entry);
            Some(number)
        }
        _ => None,
    }
}

// Whether the number of the name is 10, and then 11.
fn is_exchanged(names: &mut Map<Name, ObjId>, name: &Name) -> bool {
    names.get(name) == Some(&ObjId(10))
        && exchanged(names, name, ObjId(11)) == Some(ObjId(10))
        && names.get(name) == Some(&ObjId(11))
}

// Whether `lp1` is the first name, and `lp2` the one after this.
fn is_between(names: &Map<Name, ObjId>, name: &Name) -> bool {
    is_after(names, Some(name), b"lp2", ObjId(2)) && is_after(names, None, b"lp1", ObjId(1))
}

// Whether the number of the name is 11, also once it was taken out and put in again.
fn is_put_again(names: &mut Map<Name, ObjId>, name: &Name) -> bool {
    taken_and_put(names, name) == Some(ObjId(11)) && names.get(name) == Some(&ObjId(11))
}

// Whether each call on the names answers as it should for `lp10`, which is this name.
fn answers_for_name(
    names: &mut Map<Name, ObjId>,
    name: &Name,
    alloc: Global,
) -> Result<bool, OutOfMemory> {
    put_three_names(names, alloc)?;
    Ok(is_exchanged(names, name) && is_between(names, name) && is_put_again(names, name))
}

#[test]
fn entries_are_put_taken_and_exchanged(rt: HostRuntime) -> Result<(), Fail> {
    let name = Name::from_slice(rt.alloc(), b"lp10")?;
    let mut names = Map::new();
    assert!(rt; answers_for_name(&mut names, &name, rt.alloc())?);
    Ok(())
}

// Puts the pair in, if it is not there, and tells whether it was its entry's key.
fn put_pair(
    pairs: &mut Map<(ObjId, ObjId), ()>,
    alloc: Global,
    pair: (ObjId, ObjId),
) -> Result<bool, OutOfMemory> {
    let entry = Entry::new(alloc, pair, ())?;
    let is_key = *entry.key() == pair;
    if pairs.get(&pair).is_none() {
        pairs.put(entry);
    }
    Ok(is_key)
}

// Whether there is one entry, and none of this pair.
fn has_one_other(pairs: &Map<(ObjId, ObjId), ()>, pair: (ObjId, ObjId)) -> bool {
    !pairs.is_empty() && pairs.levels() == 1 && pairs.get(&pair).is_none()
}

// Whether the pair was there, and none is left once it is taken out.
fn is_last(pairs: &mut Map<(ObjId, ObjId), ()>, pair: (ObjId, ObjId)) -> bool {
    pairs.take(&pair).is_some() && pairs.is_empty()
}

fn has_one_and_then_none(
    pairs: &mut Map<(ObjId, ObjId), ()>,
    alloc: Global,
) -> Result<bool, OutOfMemory> {
    let pair = (ObjId(1), ObjId(2));
    Ok(
        put_pair(pairs, alloc, pair)?
            && has_one_other(pairs, (ObjId(1), ObjId(3)))
            && is_last(pairs, pair),
    )
}

#[test]
fn the_only_entry_is_taken(rt: HostRuntime) -> Result<(), Fail> {
    let mut pairs = Map::new();
    assert!(rt; pairs.is_empty() && pairs.levels() == 0);
    assert!(rt; has_one_and_then_none(&mut pairs, rt.alloc())?);
    Ok(())
}
