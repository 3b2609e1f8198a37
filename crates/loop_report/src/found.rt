//! What is found of a set of pairs, and its lines.

ghost use Rattle.std.specs.Prelude.{◌≡◌, flat_map};
ghost use Rattle.tube_io.specs.Sends.{Sends};
ghost use Rattle.tube_report.specs.Lines.{line};
ghost use Rattle.loop_report.specs.Loops.{finding_words, front_text, run_line, set_front, set_text};

use loop_sets::Finding;
use text_pieces::{Piece, write_pieces};
use tplane_paver::{Component, Run};
use tube_io::{Sink, WriteFault};

/// A set of possible pairs that hang together, with what is found of it.
#[derive(Drop)]
pub struct Found {
    /// The pairs.
    pub set: Component,
    /// What is found of them.
    pub finding: Finding,
}

// `proved sure A B`, `proved degree D` or `possible`, and the line's end.
fn write_finding<K: Sink>(finding: Finding, sink: &mut K) -> Result<(), WriteFault>
    ensures { Sends K.written K.flushed K.faults (line (finding_words finding)) sink.old sink.new result }
{
    match finding {
        Finding::Sure(a, b) => {
            let pieces = [
                Piece::Text(b"proved sure "),
                Piece::Count(a as u64),
                Piece::Text(b" "),
                Piece::Count(b as u64),
                Piece::Text(b"\n"),
            ];
            write_pieces(sink, &pieces)
        }
        Finding::Degree(degree) => {
            let pieces = [
                Piece::Text(b"proved degree "),
                Piece::Number(degree),
                Piece::Text(b"\n"),
            ];
            write_pieces(sink, &pieces)
        }
        Finding::Unproved => write_pieces(sink, &[Piece::Text(b"possible\n")]),
    }
}

// `set NUMBER pairs COUNT a LEAST GREATEST b LEAST GREATEST`, and a space.
#[tactic(auto, unfolding(crate::specs::Loops::front_text))]
fn write_front<K: Sink>(
    number: u64,
    pairs: u64,
    a: (u32, u32),
    b: (u32, u32),
    sink: &mut K,
) -> Result<(), WriteFault>
    ensures { Sends K.written K.flushed K.faults (front_text number pairs a.0 a.1 b.0 b.1) sink.old sink.new result }
{
    let pieces = [
        Piece::Text(b"set "),
        Piece::Count(number),
        Piece::Text(b" pairs "),
        Piece::Count(pairs),
        Piece::Text(b" a "),
        Piece::Count(a.0 as u64),
        Piece::Text(b" "),
        Piece::Count(a.1 as u64),
        Piece::Text(b" b "),
        Piece::Count(b.0 as u64),
        Piece::Text(b" "),
        Piece::Count(b.1 as u64),
        Piece::Text(b" "),
    ];
    write_pieces(sink, &pieces)
}

fn write_set_front<K: Sink>(number: u64, set: &Component, sink: &mut K) -> Result<(), WriteFault>
    ensures { Sends K.written K.flushed K.faults (set_front number set.now) sink.old sink.new result }
{
    let _runs = set.runs();
    write_front(number, set.pairs(), set.span_a(), set.span_b(), sink)
}

#[tactic(auto, unfolding(crate::specs::Loops::run_line))]
fn write_run<K: Sink>(run: Run, sink: &mut K) -> Result<(), WriteFault>
    ensures { Sends K.written K.flushed K.faults (run_line run) sink.old sink.new result }
{
    let pieces = [
        Piece::Text(b"run "),
        Piece::Count(run.a as u64),
        Piece::Text(b" "),
        Piece::Count(run.first as u64),
        Piece::Text(b" "),
        Piece::Count(run.last as u64),
        Piece::Text(b"\n"),
    ];
    write_pieces(sink, &pieces)
}

fn write_runs<K: Sink>(runs: &[Run], sink: &mut K) -> Result<(), WriteFault>
    ensures { Sends K.written K.flushed K.faults (flat_map run_line runs.now) sink.old sink.new result }
{
    for run in runs {
        write_run(*run, sink)?;
    }
    Ok(())
}

/// The lines of a set with its number, and its runs in order where `brief` is false.
pub(crate) fn write_set<K: Sink>(
    number: u64,
    found: &Found,
    brief: bool,
    sink: &mut K,
) -> Result<(), WriteFault>
    ensures { Sends K.written K.flushed K.faults (set_text brief number found.now) sink.old sink.new result }
{
    write_set_front(number, &found.set, sink)?;
    write_finding(found.finding, sink)?;
    if brief {
        return Ok(());
    }
    write_runs(found.set.runs(), sink)
}
