//! A whole log.

ghost use Rattle.std.specs.Prelude.{◌≡◌, ◌&&◌, true, Err, IfOk, MatchResult, if◌then◌else◌};
ghost use Rattle.std.specs.List.{list_all};
ghost use Rattle.csv_rows.specs.Records.{records_of};
ghost use Rattle.mission_items.specs.Made.{has_head};
ghost use Rattle.mission_items.specs.Valid.{IsMission};
ghost use Rattle.mission_log.specs.Log.{IsLog, is_note_record, log_by, log_from, log_of, nothing_yet};

use crate::fault::LogFault;
use crate::take::take;
use csv::ByteRecord;
use csv_rows::Rows;
use log_draft::Draft;
use log_fields::fields::field;
use log_fields::{Cause, Stop};
use log_spelling::is_note;
use mission_items::Mission;
use std::alloc::Global;
use tube_io::NoMemory;
use tube_limits::MOST_BYTES;

/// Reads a log. Where it is refused, the earliest record that has a cause is told by its number, from 1
/// on, with the lowest of its causes. Number 0 comes first: a log of more than 67,108,864 bytes is too
/// long, and one with no record but notes has no mission. Of time and memory nothing is promised; as
/// measured, the time grows as the bytes do.
pub fn read_log(alloc: Global, bytes: &[u8]) -> Result<Mission, LogFault>
    ensures log { IsLog result (log_of bytes.now) }
    ensures valid { IfOk result IsMission }
{
    if bytes.len() > MOST_BYTES {
        return Err(LogFault::Bad {
            number: 0,
            cause: Cause::LogTooLong,
        });
    }
    let draft = drafted(alloc, bytes)?;
    Ok(draft.finish(alloc)?)
}

#[tactic(auto, using(crate::proofs::Reading::reading_starts, crate::proofs::Reading::reading_goes_on))]
fn drafted(alloc: Global, bytes: &[u8]) -> Result<Draft, LogFault>
    ensures log { MatchResult result (λ draft. log_by (records_of bytes.now) ≡ Ok draft) (λ e. IsLog (Err e) (log_by (records_of bytes.now))) }
    ensures head { IfOk result (λ draft. has_head draft.items ≡ true) }
{
    let mut rows = Rows::new(alloc, bytes);
    let mut draft = Draft::new(alloc);
    let mut row = ByteRecord::with_capacity(alloc, 0, most_fields(bytes))?;
    while rows.next(&mut row)? {
        let number = draft.len() as u32 + 1;
        let are_notes = !draft.has_head() & is_note(field(&row, 0));
        match take(&mut draft, alloc, &row) {
            Ok(()) => {}
            Err(Stop::Memory) => return Err(LogFault::NoMemory),
            Err(Stop::Because(cause)) => {
                return Err(refused(&mut rows, &mut row, are_notes, number, cause));
            }
        }
    }
    if !draft.has_head() {
        return Err(LogFault::Bad {
            number: 0,
            cause: Cause::NoMission,
        });
    }
    Ok(draft)
}

// About as many fields as the widest record has: room for their ends is taken once, since doubling the room
// of a line of 33 million fields would take as much again.
fn most_fields(bytes: &[u8]) -> usize {
    bytes
        .split(|byte| *byte == b'\n')
        .map(|line| line.iter().filter(|byte| **byte == b',').count())
        .max()
        .unwrap_or(0)
        .saturating_add(1)
}

// Where there is no record but notes, that comes before the cause of a record.
fn refused(
    rows: &mut Rows,
    row: &mut ByteRecord,
    are_notes: bool,
    number: u32,
    cause: Cause,
) -> LogFault
    ensures { IsLog (Err result) (if are_notes && list_all is_note_record rows.old then Err (0, Cause.NoMission) else Err (number, cause)) }
{
    if !are_notes {
        return LogFault::Bad { number, cause };
    }
    match has_only_notes(rows, row) {
        Ok(true) => LogFault::Bad {
            number: 0,
            cause: Cause::NoMission,
        },
        Ok(false) => LogFault::Bad { number, cause },
        Err(NoMemory) => LogFault::NoMemory,
    }
}

// Whether the records that are left are notes.
fn has_only_notes(rows: &mut Rows, row: &mut ByteRecord) -> Result<bool, NoMemory>
    ensures { IfOk result (λ all. all ≡ list_all is_note_record rows.old) }
{
    while rows.next(row)? {
        if !is_note(field(row, 0)) {
            return Ok(false);
        }
    }
    Ok(true)
}
