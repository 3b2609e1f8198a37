//! Calls by their numbers.

ghost use Rattle.std.specs.Prelude.{◌≡◌, ◌↔◌, IsTrue};
ghost use Rattle.tube_io.specs.Causes.{counted_up};
ghost use Rattle.tube_io.specs.InMemory.{IsListed};

/// Counts a call, and answers whether its number is listed.
pub(crate) fn count_listed(calls: &mut u64, numbers: &[u64]) -> bool
    ensures listed { IsTrue result ↔ IsListed numbers.now calls.old }
    ensures counted { calls.new ≡ counted_up calls.old }
{
    let call = *calls;
    *calls = call.saturating_add(1);
    if call == u64::MAX {
        return false;
    }
    if numbers.contains(&call) {
        return true;
    }
    false
}
