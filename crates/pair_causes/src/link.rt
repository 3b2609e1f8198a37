//! What a link says.

ghost use Rattle.std.specs.Prelude.{◌≡◌, ◌<◌, ◌^◌, length};
ghost use Rattle.tube_spec.specs.Limits.{most_ticks};
ghost use Rattle.tube_spec.specs.Span.{IsBounded};
ghost use Rattle.slice_gates.specs.Clock.{ticks_of};
ghost use Rattle.log_fields.specs.Fields.{are_radii};
ghost use Rattle.pair_causes.specs.Links.{ahead, link_said, tick_on};
ghost use Rattle.pair_causes.specs.Judged.{AreLinksJudged};

use crate::cause::{PairCause, PairFault};
use crate::log::Log;
use int_interval::Interval;
use mission_items::{Mission, ticks_from};
use pair_form::Link;
use slice_gates::{Grid, Ticks, ticks_in};
use std::alloc::Global;
use tube_limits::GREATEST_RADIUS;
use tube_store::SignalId;

/// What a link says: how far the first robot's position at a tick was from the second one's position at its own tick.
#[derive(Clone, Copy, Debug, PartialEq, Eq)]
pub struct Linked {
    /// The tick of the first robot's clock.
    pub tick: u32,
    /// The ticks that this may have been on the second robot's clock.
    pub times: Ticks,
    /// The least and the greatest distance, in millimetres.
    pub radii: (i64, i64),
    /// The signals of the first robot's position, by their numbers in its log.
    pub first: (SignalId, SignalId),
    /// The signals of the second robot's position, by their numbers in its log.
    pub second: (SignalId, SignalId),
}

// The tick of a clock that ends at a tick, if it is one.
fn tick_on(last: u32, tick: i64) -> Option<u32>
    ensures { result ≡ tick_on last tick }
{
    if tick < 0 || tick > i64::from(last) {
        return None;
    }
    Some(tick as u32)
}

// Whether radii are within their limits and in order.
fn are_radii(radii: (i64, i64)) -> bool
    ensures { result ≡ are_radii radii.0 radii.1 }
{
    0 <= radii.0 && radii.0 <= radii.1 && radii.1 <= GREATEST_RADIUS
}

// The ticks that a tick may be on a clock that is so many ticks ahead.
fn times_on(grid: &Grid, tick: u32, offset: Interval) -> Option<Ticks>
    requires { IsBounded most_ticks offset }
    ensures { result ≡ ticks_of grid.now (ahead offset tick) }
{
    ticks_in(grid, ticks_from(tick, tick).add(offset))
}

// What a link says.
fn said(first: &Log, second: &Log, offset: Interval, link: &Link) -> Option<Linked>
    requires { IsBounded most_ticks offset }
    ensures { result ≡ link_said first.now second.now offset link.now }
{
    let tick = tick_on(first.mission.ticks, link.tick)?;
    if !are_radii(link.radii) {
        return None;
    }
    let here = first.find_both(&link.first)?;
    let there = second.find_both(&link.second)?;
    let times = times_on(&first.mission.cuts, tick, offset)?;
    Some(Linked {
        tick,
        times,
        radii: link.radii,
        first: here,
        second: there,
    })
}

// What each link says, or which is the first that says nothing.
fn all_linked(
    alloc: Global,
    first: &Log,
    second: &Log,
    offset: Interval,
    links: &[Link],
) -> Result<Vec<Linked>, PairFault>
    requires near { IsBounded most_ticks offset }
    requires few { length links.now < 2 ^ 32 }
    ensures { AreLinksJudged first.now second.now offset links.now result }
{
    let mut all = Vec::new(alloc);
    for (i, link) in links.iter().enumerate() {
        let Some(linked) = said(first, second, offset, link) else {
            return Err(PairFault::Bad {
                at: i as u32 + 1,
                cause: PairCause::Link,
            });
        };
        if all.push(linked).is_err() {
            return Err(PairFault::NoMemory);
        }
    }
    Ok(all)
}

/// What each link says of two missions, or which is the first that says nothing.
pub(crate) fn links_of(
    alloc: Global,
    first: &Mission,
    second: &Mission,
    offset: Interval,
    links: &[Link],
) -> Result<Vec<Linked>, PairFault>
    requires first_few { length first.now.items < 2 ^ 32 }
    requires second_few { length second.now.items < 2 ^ 32 }
    requires near { IsBounded most_ticks offset }
    requires few { length links.now < 2 ^ 32 }
    ensures { AreLinksJudged first.now second.now offset links.now result }
{
    let first = Log::of(alloc, first)?;
    let second = Log::of(alloc, second)?;
    all_linked(alloc, &first, &second, offset, links)
}
