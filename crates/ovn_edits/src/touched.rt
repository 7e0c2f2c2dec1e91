use nb_store::{Place, Touch};
use nv_base::{ObjId, OutOfMemory, put_dec};

// The word of a kind of object, and the object's number.
fn word_and_number(place: Place) -> (&'static str, ObjId) {
    match place {
        Place::Switch(number) => ("switch", number),
        Place::Port(number) => ("port", number),
        Place::Router(number) => ("router", number),
        Place::RouterPort(number) => ("router-port", number),
        Place::Route(number) => ("route", number),
        Place::Nat(number) => ("nat", number),
        Place::Lb(number) => ("lb", number),
        Place::Acl(number) => ("acl", number),
        Place::Set(number) => ("set", number),
        Place::Group(number) => ("group", number),
        Place::Binding(number) => ("binding", number),
    }
}

// Appends the kind and the number of a record.
fn put_place(out: &mut Vec<u8>, place: Place) -> Result<(), OutOfMemory> {
    let (word, number) = word_and_number(place);
    out.extend_from_slice(word.as_bytes())?;
    out.push(b' ')?;
    put_dec(out, u128::from(number.0))
}

// Appends a record, and the number that came to what it lists or went from it, if it is that alone.
fn put_touch(out: &mut Vec<u8>, touch: Touch) -> Result<(), OutOfMemory> {
    match touch {
        Touch::Whole(place) => put_place(out, place),
        Touch::Listed(place, number) => {
            put_place(out, place)?;
            out.extend_from_slice(b" lists ")?;
            put_dec(out, u128::from(number.0))
        }
    }
}

/// Appends what was touched, a line each.
pub(crate) fn put_touched(out: &mut Vec<u8>, touches: &[Touch]) -> Result<(), OutOfMemory> {
    for touch in touches {
        put_touch(out, *touch)?;
        out.push(b'\n')?;
    }
    Ok(())
}
