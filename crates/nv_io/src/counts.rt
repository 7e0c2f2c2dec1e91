ghost use Rattle.std.specs.Prelude.{◌≡◌};
ghost use Rattle.nv_io.specs.Counts.{next_count, count_after};

/// The count after one more, which stays at the last value.
pub(crate) fn one_more(count: u64) -> u64
    ensures { result ≡ next_count count }
{
    count.saturating_add(1)
}

/// The count after `n` more, which stays at the last value.
pub(crate) fn some_more(count: u64, n: usize) -> u64
    ensures { result ≡ count_after count n }
{
    count.saturating_add(n as u64)
}
