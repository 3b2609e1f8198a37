//! The records that declare a name.

ghost use Rattle.std.specs.Prelude.{◌≡◌, true};
ghost use Rattle.csv.specs.Records.{fields_of};
ghost use Rattle.log_fields.specs.Steps.{Gives};
ghost use Rattle.mission_items.specs.Made.{has_head};
ghost use Rattle.mission_log.specs.Log.{beacon_step, signal_step, variable_step};

use csv::ByteRecord;
use log_draft::Draft;
use log_fields::Stop;
use log_fields::declaring::{beacon_fields, declared_fields};
use mission_items::{Decl, Item};
use std::alloc::Global;
use tube_io::Text;
use tube_store::{SignalId, VarId};

#[tactic(auto, unfolding(crate::specs::Log::signal_step))]
pub(crate) fn take_signal(draft: &mut Draft, alloc: Global, row: &ByteRecord) -> Result<(), Stop>
    requires { has_head draft.old.items ≡ true }
    ensures { Gives (λ _. draft.new) result (signal_step draft.old (fields_of row.now)) }
{
    let fields = match declared_fields(row) {
        Ok(fields) => fields,
        Err(stop) => return Err(stop),
    };
    draft.ensure_new(fields.name)?;
    let name = Text::new(alloc, fields.name)?;
    let range = fields.range;
    let item = Item::Signal { name, range };
    let id = SignalId(draft.signals());
    let counts = draft.room_for(&item, 3 * draft.slices())?;
    draft.declare(alloc, fields.name, Decl::Signal { id, range }, item, counts)?;
    Ok(())
}

#[tactic(auto, unfolding(crate::specs::Log::variable_step))]
pub(crate) fn take_variable(draft: &mut Draft, alloc: Global, row: &ByteRecord) -> Result<(), Stop>
    requires { has_head draft.old.items ≡ true }
    ensures { Gives (λ _. draft.new) result (variable_step draft.old (fields_of row.now)) }
{
    let fields = match declared_fields(row) {
        Ok(fields) => fields,
        Err(stop) => return Err(stop),
    };
    draft.ensure_new(fields.name)?;
    let name = Text::new(alloc, fields.name)?;
    let range = fields.range;
    let item = Item::Variable { name, range };
    let id = VarId(draft.variables());
    let counts = draft.room_for(&item, 0)?;
    draft.declare(
        alloc,
        fields.name,
        Decl::Variable { id, range },
        item,
        counts,
    )?;
    Ok(())
}

#[tactic(auto, unfolding(crate::specs::Log::beacon_step))]
pub(crate) fn take_beacon(draft: &mut Draft, alloc: Global, row: &ByteRecord) -> Result<(), Stop>
    requires { has_head draft.old.items ≡ true }
    ensures { Gives (λ _. draft.new) result (beacon_step draft.old (fields_of row.now)) }
{
    let fields = match beacon_fields(row) {
        Ok(fields) => fields,
        Err(stop) => return Err(stop),
    };
    draft.ensure_new(fields.name)?;
    let name = Text::new(alloc, fields.name)?;
    let x = fields.x;
    let y = fields.y;
    let item = Item::Beacon { name, x, y };
    let declared = Decl::Beacon {
        place: draft.beacons(),
        first: VarId(draft.variables()),
        x,
        y,
    };
    let counts = draft.room_for(&item, 0)?;
    draft.declare(alloc, fields.name, declared, item, counts)?;
    Ok(())
}
