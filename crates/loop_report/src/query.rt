//! The lines of a query.

ghost use Rattle.std.specs.Prelude.{◌≡◌};
ghost use Rattle.std.specs.Option.{option_copied};
ghost use Rattle.tube_io.specs.Sends.{Sends};
ghost use Rattle.loop_report.specs.Loops.{crowded_line, done_line, loops_text, sets_line, sets_text};

use crate::found::{Found, write_set};
use text_pieces::{Piece, write_pieces};
use tube_io::{Sink, WriteFault};

#[tactic(auto, unfolding(crate::specs::Loops::crowded_line))]
fn write_crowded_line<K: Sink>(number: u32, sink: &mut K) -> Result<(), WriteFault>
    ensures { Sends K.written K.flushed K.faults (crowded_line number) sink.old sink.new result }
{
    let pieces = [
        Piece::Text(b"loops "),
        Piece::Count(number as u64),
        Piece::Text(b" crowded\n"),
    ];
    write_pieces(sink, &pieces)
}

#[tactic(auto, unfolding(crate::specs::Loops::sets_line))]
fn write_sets_line<K: Sink>(number: u32, count: u64, sink: &mut K) -> Result<(), WriteFault>
    ensures { Sends K.written K.flushed K.faults (sets_line number count) sink.old sink.new result }
{
    let pieces = [
        Piece::Text(b"loops "),
        Piece::Count(number as u64),
        Piece::Text(b" sets "),
        Piece::Count(count),
        Piece::Text(b"\n"),
    ];
    write_pieces(sink, &pieces)
}

#[tactic(auto, unfolding(crate::specs::Loops::done_line))]
fn write_done_line<K: Sink>(number: u32, sink: &mut K) -> Result<(), WriteFault>
    ensures { Sends K.written K.flushed K.faults (done_line number) sink.old sink.new result }
{
    let pieces = [
        Piece::Text(b"done "),
        Piece::Count(number as u64),
        Piece::Text(b"\n"),
    ];
    write_pieces(sink, &pieces)
}

fn write_sets<K: Sink>(sets: &[Found], brief: bool, sink: &mut K) -> Result<(), WriteFault>
    ensures { Sends K.written K.flushed K.faults (sets_text brief 1 sets.now) sink.old sink.new result }
{
    let mut number = 1;
    for found in sets {
        write_set(number, found, brief, sink)?;
        number += 1;
    }
    Ok(())
}

fn write_found<K: Sink>(
    number: u32,
    sets: &[Found],
    brief: bool,
    sink: &mut K,
) -> Result<(), WriteFault>
    ensures { Sends K.written K.flushed K.faults (loops_text number (Some sets.now) brief) sink.old sink.new result }
{
    write_sets_line(number, sets.len() as u64, sink)?;
    write_sets(sets, brief, sink)?;
    write_done_line(number, sink)
}

/// Writes what is found of the query with a number, from 1 on: its sets in the order that is given, or that it is crowded where there
/// is none. With `brief` no run is written. After an error, which is a failed write, a prefix of the text was taken. It takes no memory.
pub fn write_loops<K: Sink>(
    number: u32,
    found: Option<&[Found]>,
    brief: bool,
    sink: &mut K,
) -> Result<(), WriteFault>
    ensures { Sends K.written K.flushed K.faults (loops_text number (option_copied found.entry) brief) sink.old sink.new result }
{
    let Some(sets) = found else {
        write_crowded_line(number, sink)?;
        return write_done_line(number, sink);
    };
    write_found(number, sets, brief, sink)
}
