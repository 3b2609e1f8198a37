//! A whole source, and a whole text into a sink.

ghost use Rattle.std.specs.Prelude.{◌≡◌, ℕ, ◌+◌, ◌≤◌, ◌<◌, length, IfOk, IfSome, IsErrOf};
ghost use Rattle.tube_io.specs.Sends.{Sends};
ghost use Rattle.tube_io.specs.Whole.{TakesWhole, WholeCause};

use crate::sink::{Put, Sink};
use crate::source::{Got, Source};
use std::alloc::Global;

/// Why a whole source was not read.
#[derive(Clone, Copy, Debug, PartialEq, Eq)]
pub enum ReadEnd {
    /// It gave more bytes than the limit.
    TooLong,
    /// A read failed.
    Failed,
    /// Memory was refused.
    NoMemory,
}

/// A write failed.
#[derive(Clone, Copy, Debug, PartialEq, Eq)]
pub struct WriteFault;

/// Reads all that a source has, at most `limit` bytes. It makes at most `limit + 1` reads. What was read is gone after a refusal, which
/// is `TooLong` exactly where no read failed and the source gave `limit + 1` bytes.
pub fn read_whole<S: Source>(
    alloc: Global,
    source: &mut S,
    limit: usize,
) -> Result<Vec<u8>, ReadEnd>
    requires { limit ≤ 1000000000 }

    // What was taken of the source, and what its count of faults says.
    ensures taken { TakesWhole limit (S.left source.old) (S.left source.new) result }
    ensures cause { WholeCause (S.faults source.old) (S.faults source.new) result }
    ensures later { S.faults source.old ≤ S.faults source.new }
    ensures turns { S.reads source.new ≤ S.reads source.old + (limit + 1) }

    // Of a source that tells its bytes: all of them, or they are more than the limit.
    ensures whole { IfOk result (λ bytes. IfSome (S.left source.old) (λ xs. bytes.items ≡ xs)) }
    ensures too_long { IsErrOf result ReadEnd.TooLong → IfSome (S.left source.old) (λ xs. limit < length xs) }
{
    let mut bytes = Vec::new(alloc);
    let mut chunk = [0u8; 4096];
    while bytes.len() <= limit {
        let room = (limit - bytes.len() + 1).min(4096);
        match source.read(&mut chunk[..room]) {
            Got::Bytes(n) => {
                if bytes.extend_from_slice(&chunk[..n]).is_err() {
                    return Err(ReadEnd::NoMemory);
                }
            }
            Got::End => return Ok(bytes),
            Got::Failed => return Err(ReadEnd::Failed),
        }
    }
    Err(ReadEnd::TooLong)
}

/// Writes all of the bytes. After an error, which is a failed write, a prefix of them was taken.
pub fn write_all<K: Sink>(sink: &mut K, bytes: &[u8]) -> Result<(), WriteFault>
    ensures { Sends K.written K.flushed K.faults bytes.now sink.old sink.new result }
{
    let mut at = 0;
    while at < bytes.len() {
        let (_, rest) = bytes.split_at(at);
        match sink.write(rest) {
            Put::Took(n) => at += n,
            Put::Failed => return Err(WriteFault),
        }
    }
    Ok(())
}
