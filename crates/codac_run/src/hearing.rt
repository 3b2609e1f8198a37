ghost use Rattle.std.specs.Prelude.{◌≡◌, ◌≤◌, IsErrOf, IfSome};
ghost use Rattle.tube_io.specs.Causes.{Rose};
ghost use Rattle.mission_items.specs.Valid.{IsMission};
ghost use Rattle.codac_run.specs.Hearing.{Gives, IfAccepted};

use log_causes::lowest_is_told;
use log_fields::Cause;
use mission_items::Mission;
use mission_log::{LogFault, read_log};
use std::alloc::Global;
use tube_io::{ReadEnd, Source, read_whole};

/// What was heard of a log, with its bytes, or why nothing was.
#[derive(Drop)]
pub(crate) enum Heard {
    Accepted { bytes: Vec<u8>, mission: Mission },
    Refused { number: u32, cause: Cause },
    Failed,
    NoMemory,
}

/// Reads the whole source, of at most `limit` bytes, and judges the log.
pub(crate) fn hear<S: Source>(alloc: Global, source: &mut S, limit: usize) -> Heard
    requires { limit ≤ 1000000000 }
    ensures gives { Gives limit (S.left source.old) (S.left source.new) result }
    ensures valid { IfAccepted result IsMission }
    ensures failed { result ≡ Heard.Failed → Rose (S.faults source.old) (S.faults source.new) }
    ensures later { S.faults source.old ≤ S.faults source.new }
{
    lowest_is_told();
    let bytes = match read_whole(alloc, source, limit) {
        Ok(bytes) => bytes,
        Err(ReadEnd::TooLong) => return Heard::Refused {
            number: 0,
            cause: Cause::LogTooLong,
        },
        Err(ReadEnd::Failed) => return Heard::Failed,
        Err(ReadEnd::NoMemory) => return Heard::NoMemory,
    };
    match read_log(alloc, bytes.as_slice()) {
        Ok(mission) => Heard::Accepted { bytes, mission },
        Err(LogFault::Bad { number, cause }) => Heard::Refused { number, cause },
        Err(LogFault::NoMemory) => Heard::NoMemory,
    }
}
