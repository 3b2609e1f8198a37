//! What is written in place of a report: why a log is refused.

ghost use Rattle.std.specs.Prelude.{◌≡◌};
ghost use Rattle.tube_io.specs.Sends.{Sends};
ghost use Rattle.tube_report.specs.Causes.{cause_name, cause_number, fault_line};

use log_fields::Cause;
use text_pieces::{Piece, write_pieces};
use tube_io::{Sink, WriteFault};

// The number of a cause, from 1 to 24.
fn cause_number(cause: Cause) -> u32
    ensures { result ≡ cause_number cause }
{
    cause as u32
}

// The name of a cause.
fn cause_name(cause: Cause) -> &'static [u8]
    ensures { result.now ≡ cause_name cause }
{
    match cause {
        Cause::NoMission => b"NoMission",
        Cause::Version => b"Version",
        Cause::Kind => b"Kind",
        Cause::Fields => b"Fields",
        Cause::Name => b"Name",
        Cause::Number => b"Number",
        Cause::Range => b"Range",
        Cause::Twice => b"Twice",
        Cause::Unknown => b"Unknown",
        Cause::WrongKind => b"WrongKind",
        Cause::Tick => b"Tick",
        Cause::Wide => b"Wide",
        Cause::Text => b"Text",
        Cause::Deep => b"Deep",
        Cause::Big => b"Big",
        Cause::Cells => b"Cells",
        Cause::Foot => b"Foot",
        Cause::Records => b"Records",
        Cause::NoBeacon => b"NoBeacon",
        Cause::Same => b"Same",
        Cause::Queries => b"Queries",
        Cause::Plane => b"Plane",
        Cause::LogTooLong => b"LogTooLong",
        Cause::LateCut => b"LateCut",
    }
}

/// Writes why a log is refused: `refused NUMBER CAUSENUMBER CAUSENAME`, where the number is that of the
/// record, from 1 on, or 0 for the whole log. After an error, which is a failed write, a prefix of it was
/// taken.
#[tactic(auto, unfolding(crate::specs::Causes::fault_line))]
pub fn write_fault<K: Sink>(number: u32, cause: Cause, sink: &mut K) -> Result<(), WriteFault>
    ensures { Sends K.written K.flushed K.faults (fault_line number cause) sink.old sink.new result }
{
    let pieces = [
        Piece::Text(b"refused "),
        Piece::Count(number as u64),
        Piece::Text(b" "),
        Piece::Count(cause_number(cause) as u64),
        Piece::Text(b" "),
        Piece::Text(cause_name(cause)),
        Piece::Text(b"\n"),
    ];
    write_pieces(sink, &pieces)
}
