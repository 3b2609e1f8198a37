//! What is printed is read again: the canonical text of a mission that was read is a log of the same mission.
#![tactic(auto)]

ghost use Rattle.std.specs.Prelude.{◌≡◌, ◌≤◌, length, Err, IfErr, IfOk};
ghost use Rattle.tube_spec.specs.Limits.{most_bytes};
ghost use Rattle.log_round_trip.specs.Laws.{IsTextOf, PrintedIsRead};
ghost use Rattle.mission_log.specs.Log.{IsLog, log_of};

use formula_text::laws::printing_law;
use log_text::laws::records_are_read;
use log_text::print_log;
use mission_log::{LogFault, read_log};
use std::alloc::Global;

/// The canonical text of an accepted mission is read as that mission, as long as it has at most 67,108,864 bytes. Every mission that
/// `read_log` gives is an accepted one.
pub fn printed_is_read()
    ensures { PrintedIsRead }
{
    printing_law();
    records_are_read();
}

/// The canonical text of a log: a log of the same mission, as long as it has at most 67,108,864 bytes. A log that is refused has none,
/// and is refused as `read_log` refuses it.
pub fn canonical(alloc: Global, log: &[u8]) -> Result<Vec<u8>, LogFault>
    ensures text { IfOk result (λ text. IsTextOf text.items (log_of log.now)) }
    ensures same { IfOk result (λ text. length text.items ≤ most_bytes → log_of text.items ≡ log_of log.now) }
    ensures refused { IfErr result (λ fault. IsLog (Err fault) (log_of log.now)) }
{
    printed_is_read();
    let mission = read_log(alloc, log)?;
    let text = print_log(alloc, &mission)?;
    Ok(text)
}
