//! Amounts that are within a bound (not from OVN).
ghost use Rattle.std.specs.Prelude.{◌≡◌, ◌+◌, ◌*◌};
ghost use Rattle.nb_limits.specs.inner.Within.{up_to, raised, raised_by};
ghost use Rattle.nb_model.specs.Amounts.{bound};

use crate::bounds::bound;
use nb_records::Kind;

/// So many of a kind, where they are within its bound.
pub(crate) fn count_within(count: u64, kind: Kind) -> Option<u64>
    ensures { result ≡ up_to (bound kind) count }
{
    if count > u64::from(bound(kind)) {
        None
    } else {
        Some(count)
    }
}

/// The same of a weight.
pub(crate) fn weight_within(weight: u128, kind: Kind) -> Option<u64>
    ensures { result ≡ up_to (bound kind) weight }
{
    if weight > u128::from(bound(kind)) {
        None
    } else {
        Some(weight as u64)
    }
}

/// The sum of two amounts, where it is within the bound.
pub(crate) fn add(sum: u64, more: u64, bound: u64) -> Option<u64>
    ensures { result ≡ up_to bound (sum + more) }
{
    let total = sum.checked_add(more)?;
    if total > bound { None } else { Some(total) }
}

/// The sum of an amount and so many times another one, where it is within the bound.
pub(crate) fn add_times(sum: u64, more: u64, times: u64, bound: u64) -> Option<u64>
    ensures { result ≡ up_to bound (sum + more * times) }
{
    add(sum, more.checked_mul(times)?, bound)
}

/// So many more, each of this amount, where that is known and within the bound of the kind.
pub(crate) fn raised(most: Option<u64>, more: u64, times: u64, kind: Kind) -> Option<u64>
    ensures { result ≡ raised (bound kind) most more times }
{
    add_times(most?, more, times, u64::from(bound(kind)))
}

/// The same, where the amount is told.
pub(crate) fn raised_by(most: Option<u64>, more: Option<u64>, times: u64, kind: Kind) -> Option<u64>
    ensures { result ≡ raised_by (bound kind) most more times }
{
    raised(most, more?, times, kind)
}
