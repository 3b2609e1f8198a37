//! One record.

ghost use Rattle.std.specs.Prelude.{◌≡◌, true};
ghost use Rattle.csv.specs.Records.{fields_of};
ghost use Rattle.log_fields.specs.Steps.{Gives};
ghost use Rattle.mission_items.specs.Made.{has_head};
ghost use Rattle.mission_log.specs.Log.{kind_step, record_step, step};

use crate::clock::{take_cut, take_mission};
use crate::declaring::{take_beacon, take_signal, take_variable};
use crate::formulas::{take_each, take_single};
use crate::ping::take_ping;
use crate::points::{take_constell, take_range, take_range3};
use crate::questions::{take_revisit, take_settle};
use crate::signals::{take_at, take_bound, take_delay, take_deriv, take_eval};
use csv::ByteRecord;
use log_draft::Draft;
use log_fields::fields::{ensure, field};
use log_fields::{Cause, Stop};
use log_spelling::{Kind, is_note};
use mission_items::Item;
use std::alloc::Global;

#[tactic(auto, unfolding(crate::specs::Log::kind_step))]
fn take_kind(draft: &mut Draft, alloc: Global, row: &ByteRecord, kind: Kind) -> Result<(), Stop>
    requires { has_head draft.old.items ≡ true }
    ensures { Gives (λ _. draft.new) result (kind_step draft.old (fields_of row.now) (Some kind)) }
{
    match kind {
        Kind::Mission => return take_mission(draft, alloc, row),
        Kind::Cut => return take_cut(draft, row),
        Kind::Signal => return take_signal(draft, alloc, row),
        Kind::Variable => return take_variable(draft, alloc, row),
        Kind::Beacon => return take_beacon(draft, alloc, row),
        Kind::Deriv => return take_deriv(draft, row),
        Kind::Bound => return take_bound(draft, row),
        Kind::At => return take_at(draft, alloc, row),
        Kind::Eval => return take_eval(draft, alloc, row),
        Kind::Delay => return take_delay(draft, row),
        Kind::Range => return take_range(draft, alloc, row),
        Kind::Range3 => return take_range3(draft, alloc, row),
        Kind::Constell => return take_constell(draft, alloc, row),
        Kind::Ping => return take_ping(draft, alloc, row),
        Kind::Expr => return take_each(draft, alloc, row),
        Kind::Exprv => return take_single(draft, alloc, row),
        Kind::Revisit => return take_revisit(draft, row),
        Kind::Settle => return take_settle(draft, row),
    }
}

#[tactic(auto, unfolding(crate::specs::Log::kind_step))]
fn take_record(
    draft: &mut Draft,
    alloc: Global,
    row: &ByteRecord,
    kind: Option<Kind>,
) -> Result<(), Stop>
    ensures { Gives (λ _. draft.new) result (record_step draft.old (fields_of row.now) kind) }
{
    if let Some(Kind::Mission) = kind {
        return take_mission(draft, alloc, row);
    }
    ensure(draft.has_head(), Cause::NoMission)?;
    match kind {
        Some(kind) => return take_kind(draft, alloc, row, kind),
        None => return Err(Stop::Because(Cause::Kind)),
    }
}

/// Takes the next record. After an error the draft is of no use.
#[tactic(auto, unfolding(crate::specs::Log::step))]
pub(crate) fn take(draft: &mut Draft, alloc: Global, row: &ByteRecord) -> Result<(), Stop>
    ensures { Gives (λ _. draft.new) result (step draft.old (fields_of row.now)) }
{
    let word = field(row, 0);
    if is_note(word) {
        return draft.add(Item::Note, 0);
    }
    take_record(draft, alloc, row, Kind::of(word))
}
