//! The places of a table's rows. Each rank has many, and those of a higher rank are higher.
ghost use Rattle.std.specs.Prelude.{◌≡◌, ◌+◌, ◌<◌, ◌≤◌, ◌^◌, IfOk, IfSome};
ghost use Rattle.sb_rows.specs.inner.Store.{first_place};

use nv_base::OutOfMemory;

// How many places a rank has.
pub(crate) const PLACES: u128 = 1 << 79;

// So far apart are rows of one rank that come one after the other.
const STEP: u128 = 1 << 40;

// The first place of a rank.
pub(crate) fn first_place(rank: u64) -> u128
    requires { rank < 2 ^ 48 }
    ensures { result ≡ first_place rank }
{
    u128::from(rank) * PLACES
}

// The place of a row of this rank that comes after the row at the last place, if there is one. `OutOfMemory` where the rank has no more:
// that is where more rows are of one rank than any memory holds.
pub(crate) fn next_place(last: Option<u128>, rank: u64) -> Result<u128, OutOfMemory>
    requires rank { rank < 2 ^ 48 }
    requires last { IfSome last (λ there. there < first_place (rank + 1)) }
    ensures from { IfOk result (λ place. first_place rank ≤ place) }
    ensures below { IfOk result (λ place. place < first_place (rank + 1)) }
    ensures after { IfOk result (λ place. IfSome last (λ there. there < place)) }
{
    let first = first_place(rank);
    match last {
        Some(last) if first <= last => {
            if last + STEP < first + PLACES {
                Ok(last + STEP)
            } else {
                Err(OutOfMemory)
            }
        }
        _ => Ok(first + PLACES / 2),
    }
}

// A place of a rank between two others, if one is left. Where there is none before it, or none after it, most of the room is left on that side.
pub(crate) fn place_between(rank: u64, before: Option<u128>, after: Option<u128>) -> Option<u128>
    requires rank { rank < 2 ^ 48 }
    requires before { IfSome before (λ there. (first_place rank ≤ there) × (there < first_place (rank + 1))) }
    requires after { IfSome after (λ there. (first_place rank ≤ there) × (there < first_place (rank + 1))) }
    ensures from { IfSome result (λ place. first_place rank ≤ place) }
    ensures below { IfSome result (λ place. place < first_place (rank + 1)) }
    ensures before { IfSome result (λ place. IfSome before (λ there. there < place)) }
    ensures after { IfSome result (λ place. IfSome after (λ there. place < there)) }
{
    let first = first_place(rank);
    let low = match before {
        Some(there) => there + 1,
        None => first,
    };
    let high = after.unwrap_or(first + PLACES);
    if high <= low {
        return None;
    }
    let half = (high - low) / 2;
    match (before, after) {
        (Some(_), None) => Some(low + half.min(STEP)),
        (None, Some(_)) => Some(high - 1 - half.min(STEP)),
        _ => Some(low + half),
    }
}
