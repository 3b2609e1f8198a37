//! The records that make the clock.

ghost use Rattle.std.specs.Prelude.{◌≡◌, true};
ghost use Rattle.csv.specs.Records.{fields_of};
ghost use Rattle.log_fields.specs.Steps.{Gives};
ghost use Rattle.mission_items.specs.Made.{has_head};
ghost use Rattle.mission_log.specs.Log.{cut_step, mission_step};

use csv::ByteRecord;
use log_draft::Draft;
use log_fields::clock::{cut_fields, mission_fields};
use log_fields::fields::ensure;
use log_fields::{Cause, Stop};
use mission_items::Item;
use std::alloc::Global;

#[tactic(auto, unfolding(crate::specs::Log::mission_step))]
pub(crate) fn take_mission(draft: &mut Draft, alloc: Global, row: &ByteRecord) -> Result<(), Stop>
    ensures { Gives (λ _. draft.new) result (mission_step draft.old (fields_of row.now)) }
{
    let clock = mission_fields(row)?;
    ensure(!draft.has_head(), Cause::Twice)?;
    draft.start(alloc, clock.version, clock.ticks, clock.width)?;
    draft.add(Item::Head, 0)?;
    Ok(())
}

#[tactic(auto, unfolding(crate::specs::Log::cut_step))]
pub(crate) fn take_cut(draft: &mut Draft, row: &ByteRecord) -> Result<(), Stop>
    requires { has_head draft.old.items ≡ true }
    ensures { Gives (λ _. draft.new) result (cut_step draft.old (fields_of row.now)) }
{
    ensure(draft.version() == 2, Cause::Kind)?;
    let tick = cut_fields(row)?;
    let tick = draft.tick(tick)?;
    let _room = draft.room_for(&Item::Cut { tick }, 0)?;
    ensure(draft.is_open(), Cause::LateCut)?;
    draft.push_cut(tick)?;
    Ok(())
}
