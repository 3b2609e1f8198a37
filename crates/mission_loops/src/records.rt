//! What the first records of a mission say for queries.

ghost use Rattle.std.specs.Prelude.{◌≡◌, ◌≤◌, IfOk, length, map, take};
ghost use Rattle.mission_loops.specs.Queries.{rates_of};

use mission_items::{Item, Mission};
use std::alloc::{AllocError, Global};
use tube_store::SignalId;

/// The first records of a mission, so many.
pub(crate) fn first_items(mission: &Mission, upto: usize) -> &[Item]
    requires { upto ≤ length mission.now.items }
    ensures { result.now ≡ take upto mission.now.items }
{
    &mission.items.as_slice()[..upto]
}

/// All rates that records give a signal, in order.
pub(crate) fn rates_of(
    alloc: Global,
    items: &[Item],
    x: SignalId,
) -> Result<Vec<SignalId>, AllocError>
    ensures { IfOk result (λ rates. map (λ r. r.0) rates.items ≡ rates_of items.now x.0) }
{
    let mut rates = Vec::new(alloc);
    for item in items {
        if let Item::Deriv { x: y, rate } = item {
            if x.0 == y.0 {
                rates.push(*rate)?;
            }
        }
    }
    Ok(rates)
}
