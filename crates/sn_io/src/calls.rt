//! Counting calls, and making them fail.
ghost use Rattle.std.specs.Prelude.{◌≡◌, ◌↔◌, IsTrue, Contains};
ghost use Rattle.sn_io.specs.Count.{count_after};

/// A count after so many more. It stands still at the last value of its type.
pub(crate) fn count_up(count: u64, more: u64) -> u64
    ensures { result ≡ count_after count more }
{
    count.saturating_add(more)
}

/// Whether a call's number is listed.
pub(crate) fn is_listed(failing: &[u64], call: u128) -> bool
    ensures { IsTrue result ↔ Contains failing.now call }
{
    failing.iter().any(|&listed| u128::from(listed) == call)
}
