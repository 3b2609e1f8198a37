//! Pings: distances to a beacon at an uncertain tick.

ghost use Rattle.std.specs.Prelude.{◌≡◌, ◌+◌, ◌≤◌, ◌<◌, true, IfOk, IfSome, option_map};
ghost use Rattle.csv.specs.Records.{fields_of};
ghost use Rattle.log_fields.specs.Steps.{Gives};
ghost use Rattle.mission_items.specs.Made.{beacons_in, has_head, signals_in, ticks_from};
ghost use Rattle.mission_items.specs.Room.{evaluated, mark_foot};
ghost use Rattle.mission_log.specs.Found.{mark_declared, mark_in};
ghost use Rattle.log_draft.specs.Kept.{IsKnown};
ghost use Rattle.mission_log.specs.Meant.{IsPing};
ghost use Rattle.mission_log.specs.Log.{ping_said, ping_step};
ghost use Rattle.mission_log.specs.Room.{has_mark};

use csv::ByteRecord;
use log_draft::Draft;
use log_fields::fields::ensure;
use log_fields::points::ping_fields;
use log_fields::{Cause, Stop};
use mission_items::{Decl, Item};
use std::alloc::Global;
use tube_io::NoMemory;
use tube_store::SignalId;

/// What a ping says: the signals of a place, the first and the last tick, the place of the beacon among the beacons, if one is named,
/// and the least and the greatest distance in millimetres.
#[derive(Clone, Copy)]
pub struct PingSaid {
    pub x: SignalId,
    pub y: SignalId,
    pub first: u32,
    pub last: u32,
    pub beacon: Option<u32>,
    pub near: i64,
    pub far: i64,
}

// What the beacon of a ping is declared as, if one is named.
fn mark_declared(draft: &Draft, name: Option<&[u8]>) -> Result<Option<Decl>, Stop>
    ensures value { Gives (λ d. d) result (mark_declared draft.now.items (option_map (λ text. text.now) name.entry)) }
    ensures known { IfOk result (λ d. IfSome d (IsKnown draft.now.items)) }
{
    match name {
        None => Ok(None),
        Some(name) => {
            let declared = draft.declaration(name)?;
            Ok(Some(declared))
        }
    }
}

// The place of that beacon.
fn mark(draft: &Draft, declared: Option<Decl>) -> Result<Option<u32>, Stop>
    requires { IfSome declared (IsKnown draft.now.items) }
    ensures value { Gives (λ place. place) result (mark_in declared) }
    ensures known { IfOk result (λ beacon. IfSome beacon (λ place. place < beacons_in draft.now.items)) }
{
    match declared {
        None => Ok(None),
        Some(declared) => {
            let place = draft.beacon(declared)?;
            Ok(Some(place))
        }
    }
}

// Whether a beacon is named, or some beacon stands before.
fn has_mark(draft: &Draft, beacon: Option<u32>) -> bool
    ensures { result ≡ has_mark draft.now.items beacon }
{
    match beacon {
        None => 1 <= draft.beacons(),
        Some(_) => true,
    }
}

// How many cells the constellation of a ping's mark reads.
fn mark_foot(draft: &Draft, beacon: Option<u32>) -> u32
    ensures value { result ≡ mark_foot draft.now.items beacon }
    ensures small { result ≤ 500000 }
{
    match beacon {
        None => 2 + 2 * draft.beacons(),
        Some(_) => 0,
    }
}

// How many cells the contractors of a ping read.
fn ping_foot(
    draft: &mut Draft,
    alloc: Global,
    place: (SignalId, SignalId),
    ticks: (u32, u32),
    beacon: Option<u32>,
) -> Result<u32, NoMemory>
    requires x { place.0.0 < signals_in draft.old.items }
    requires y { place.1.0 < signals_in draft.old.items }
    requires order { ticks.0 ≤ ticks.1 }
    ensures kept { draft.new ≡ draft.old }
    ensures value { IfOk result (λ foot. foot ≡ evaluated draft.old.cuts draft.old.items place.0.0 (ticks_from ticks.0 ticks.1) + evaluated draft.old.cuts draft.old.items place.1.0 (ticks_from ticks.0 ticks.1) + 4 + mark_foot draft.old.items beacon) }
    ensures small { IfOk result (λ foot. foot ≤ 1600000) }
{
    let (x, y) = place;
    let (first, last) = ticks;
    let of_x = draft.evaluation_during(alloc, x, first, last)?;
    let of_y = draft.evaluation_during(alloc, y, first, last)?;
    Ok(of_x + of_y + 4 + mark_foot(draft, beacon))
}

#[tactic(auto, unfolding(crate::specs::Log::ping_said))]
fn ping_said(draft: &Draft, row: &ByteRecord) -> Result<PingSaid, Stop>
    ensures value { Gives (λ p. (p.x, p.y, p.first, p.last, p.beacon, p.near, p.far)) result (ping_said draft.now (fields_of row.now)) }
    ensures right { IfOk result (IsPing draft.now.ticks draft.now.items) }
{
    let fields = match ping_fields(row) {
        Ok(fields) => fields,
        Err(stop) => return Err(stop),
    };
    let first = draft.declaration(fields.x)?;
    let second = draft.declaration(fields.y)?;
    let third = mark_declared(draft, fields.beacon)?;
    let x = draft.signal(first)?;
    let y = draft.signal(second)?;
    let beacon = mark(draft, third)?;
    let start = draft.tick(fields.first)?;
    let end = draft.tick(fields.last)?;
    ensure(start <= end, Cause::Tick)?;
    ensure(end - start <= 2_000, Cause::Wide)?;
    Ok(PingSaid {
        x,
        y,
        first: start,
        last: end,
        beacon,
        near: fields.near,
        far: fields.far,
    })
}

#[tactic(auto, unfolding(crate::specs::Log::ping_step))]
pub(crate) fn take_ping(draft: &mut Draft, alloc: Global, row: &ByteRecord) -> Result<(), Stop>
    requires { has_head draft.old.items ≡ true }
    ensures { Gives (λ _. draft.new) result (ping_step draft.old (fields_of row.now)) }
{
    let p = ping_said(draft, row)?;
    let is_marked = has_mark(draft, p.beacon);
    let foot = ping_foot(draft, alloc, (p.x, p.y), (p.first, p.last), p.beacon)?;
    let item = Item::Ping {
        x: p.x,
        y: p.y,
        first: p.first,
        last: p.last,
        beacon: p.beacon,
        near: p.near,
        far: p.far,
    };
    let counts = draft.room_for(&item, foot)?;
    ensure(is_marked, Cause::NoBeacon)?;
    ensure(p.x.0 != p.y.0, Cause::Same)?;
    draft.push(item, counts)?;
    Ok(())
}
