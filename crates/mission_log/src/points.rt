//! The records that speak of points: distances, constellations and pings.

ghost use Rattle.std.specs.Prelude.{◌≡◌, ◌==◌, ◌+◌, ◌≤◌, ◌<◌, true, None, Some, ℕ, [], ◌∷◌, All, IfOk, IfSome, drop, length, map, option_map, take};
ghost use Rattle.std.specs.List.{list_any};
ghost use Rattle.csv.specs.Records.{fields_of};
ghost use Rattle.log_fields.specs.Said.{said};
ghost use Rattle.log_fields.specs.Steps.{Gives};
ghost use Rattle.mission_items.specs.Made.{beacons_in, has_head, signals_in, ticks_from};
ghost use Rattle.mission_items.specs.Names.{IsNamed, are_distinct};
ghost use Rattle.mission_items.specs.Room.{evaluated, mark_foot};
ghost use Rattle.mission_log.specs.Found.{declarations_in, mark_declared, mark_in, variables_for};
ghost use Rattle.log_draft.specs.Kept.{IsKnown};
ghost use Rattle.mission_log.specs.Meant.{IsMeant, meant};
ghost use Rattle.mission_log.specs.Log.{constell_step, ping_step, range3_step, range_step};
ghost use Rattle.mission_log.specs.Room.{has_mark};

use crate::meant::Meant;
use csv::ByteRecord;
use log_draft::Draft;
use log_fields::fields::ensure;
use log_fields::points::{constell_fields, ping_fields, range_fields, range3_fields};
use log_fields::{Cause, Reference, Stop};
use mission_items::{Decl, Item};
use std::alloc::Global;
use tube_io::NoMemory;
use tube_store::{SignalId, VarId};

// ---- several variables

// What references are declared as.
fn declarations(
    draft: &Draft,
    alloc: Global,
    references: &[Reference<'_>],
) -> Result<Vec<Meant>, Stop>
    ensures value { Gives (λ found. map meant found.items) result (declarations_in draft.now.items (map said references.now)) }
    ensures known { IfOk result (λ found. All (IsMeant draft.now.items) found.items) }
    ensures len { IfOk result (λ found. length found.items ≡ length references.now) }
{
    let mut found = Vec::new(alloc);
    for reference in references {
        let declared = draft.declaration(reference.name)?;
        found.push(Meant {
            declared,
            part: reference.part,
        })?;
    }
    Ok(found)
}

// The variables that they stand for.
fn variables(draft: &Draft, alloc: Global, found: &[Meant]) -> Result<Vec<VarId>, Stop>
    requires { All (IsMeant draft.now.items) found.now }
    ensures value { Gives (λ vs. vs.items) result (variables_for (map meant found.now)) }
    ensures named { IfOk result (λ vs. All (IsNamed draft.now.items) vs.items) }
    ensures len { IfOk result (λ vs. length vs.items ≡ length found.now) }
{
    let mut vs = Vec::new(alloc);
    for m in found {
        let v = draft.variable(m.declared, m.part)?;
        vs.push(v)?;
    }
    Ok(vs)
}

fn stands_in(vs: &[VarId], v: VarId) -> bool
    ensures { result ≡ list_any (λ w. w.0 == v.0) vs.now }
{
    vs.iter().any(|w| w.0 == v.0)
}

// Whether no two of them are the same.
fn are_distinct(vs: &[VarId]) -> bool
    ensures { result ≡ are_distinct vs.now }
{
    for (i, v) in vs.iter().enumerate() {
        let (_, others) = vs.split_at(i + 1);
        if stands_in(others, *v) {
            return false;
        }
    }
    true
}

fn first_two(vs: &[VarId]) -> [VarId; 2]
    requires { 2 ≤ length vs.now }
    ensures { result ≡ take 2 vs.now }
{
    [vs[0], vs[1]]
}

fn last_two(vs: &[VarId]) -> [VarId; 2]
    requires { length vs.now ≡ 4 }
    ensures { result ≡ drop 2 vs.now }
{
    [vs[2], vs[3]]
}

fn first_three(vs: &[VarId]) -> [VarId; 3]
    requires { 3 ≤ length vs.now }
    ensures { result ≡ take 3 vs.now }
{
    [vs[0], vs[1], vs[2]]
}

fn last_three(vs: &[VarId]) -> [VarId; 3]
    requires { length vs.now ≡ 6 }
    ensures { result ≡ drop 3 vs.now }
{
    [vs[3], vs[4], vs[5]]
}

// ---- distances

#[tactic(auto, unfolding(crate::specs::Log::range_step))]
pub(crate) fn take_range(draft: &mut Draft, alloc: Global, row: &ByteRecord) -> Result<(), Stop>
    requires { has_head draft.old.items ≡ true }
    ensures { Gives (λ _. draft.new) result (range_step draft.old (fields_of row.now)) }
{
    let fields = match range_fields(row) {
        Ok(fields) => fields,
        Err(stop) => return Err(stop),
    };
    let found = declarations(draft, alloc, &fields.points)?;
    let vs = variables(draft, alloc, &found)?;
    let item = Item::Dist2 {
        near: fields.near,
        far: fields.far,
        p: first_two(&vs),
        b: last_two(&vs),
    };
    let counts = draft.room_for(&item, 4)?;
    ensure(are_distinct(&vs), Cause::Same)?;
    draft.push(item, counts)?;
    Ok(())
}

#[tactic(auto, unfolding(crate::specs::Log::range3_step))]
pub(crate) fn take_range3(draft: &mut Draft, alloc: Global, row: &ByteRecord) -> Result<(), Stop>
    requires { has_head draft.old.items ≡ true }
    ensures { Gives (λ _. draft.new) result (range3_step draft.old (fields_of row.now)) }
{
    let fields = match range3_fields(row) {
        Ok(fields) => fields,
        Err(stop) => return Err(stop),
    };
    let found = declarations(draft, alloc, &fields.points)?;
    let vs = variables(draft, alloc, &found)?;
    let item = Item::Dist3 {
        near: fields.near,
        far: fields.far,
        p: first_three(&vs),
        b: last_three(&vs),
    };
    let counts = draft.room_for(&item, 6)?;
    ensure(are_distinct(&vs), Cause::Same)?;
    draft.push(item, counts)?;
    Ok(())
}

// ---- constellations

#[tactic(auto, unfolding(crate::specs::Log::constell_step))]
pub(crate) fn take_constell(draft: &mut Draft, alloc: Global, row: &ByteRecord) -> Result<(), Stop>
    requires { has_head draft.old.items ≡ true }
    ensures { Gives (λ _. draft.new) result (constell_step draft.old (fields_of row.now)) }
{
    let fields = match constell_fields(row) {
        Ok(fields) => fields,
        Err(stop) => return Err(stop),
    };
    let found = declarations(draft, alloc, &[fields.x, fields.y])?;
    let vs = variables(draft, alloc, &found)?;
    let item = Item::Constell { p: first_two(&vs) };
    let beacons = draft.beacons();
    let counts = draft.room_for(&item, 2 + 2 * beacons)?;
    ensure(1 <= beacons, Cause::NoBeacon)?;
    ensure(are_distinct(&vs), Cause::Same)?;
    draft.push(item, counts)?;
    Ok(())
}
