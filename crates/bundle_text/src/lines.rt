//! The lines of a bundle that stand beside the log and the texts of its sections and sets.

ghost use Rattle.std.specs.Prelude.{◌≡◌};
ghost use Rattle.tube_io.specs.Sends.{Sends};
ghost use Rattle.loop_report.specs.Loops.{crowded_line, done_line, sets_line};
ghost use Rattle.bundle_text.specs.Lines.{bundle_line, cell_line, corner_line, fire_line, fires_line, label_word, line_text};

use loop_degree::Label;
use text_pieces::{Piece, write_pieces};
use tube_io::{Sink, WriteFault};

/// A line of a bundle, the log's lines, the texts of sections and those of sets aside.
#[derive(Clone, Copy, Debug, PartialEq, Eq)]
pub enum BundleLine {
    /// `bundle N`: so many bytes of the log follow, and then byte 10.
    Bundle(u32),
    /// `fires K C`: of the section with the number `K` so many firings are listed.
    Fires(u32, u32),
    /// `fire ID`: the contractor with this number was fired.
    Fire(u32),
    /// `loops Q sets N`: the query with the number `Q` has so many sets.
    Sets(u32, u32),
    /// `loops Q crowded`: the sets of the query with the number `Q` aren't told.
    Crowded(u32),
    /// `cell A B`: the unit cell with the corner `(A, B)` is one of the set.
    Cell(u32, u32),
    /// `corner A B LABEL`: a corner of a boundary edge, in ticks, and its label.
    Corner(u32, u32, Label),
    /// `done Q`: what was found of the query with the number `Q` ends.
    Done(u32),
}

#[tactic(auto, unfolding(crate::specs::Lines::bundle_line))]
fn write_bundle_line<K: Sink>(size: u32, sink: &mut K) -> Result<(), WriteFault>
    ensures { Sends K.written K.flushed K.faults (bundle_line size) sink.old sink.new result }
{
    let pieces = [
        Piece::Text(b"bundle "),
        Piece::Count(size as u64),
        Piece::Text(b"\n"),
    ];
    write_pieces(sink, &pieces)
}

#[tactic(auto, unfolding(crate::specs::Lines::fires_line))]
fn write_fires_line<K: Sink>(number: u32, count: u32, sink: &mut K) -> Result<(), WriteFault>
    ensures { Sends K.written K.flushed K.faults (fires_line number count) sink.old sink.new result }
{
    let pieces = [
        Piece::Text(b"fires "),
        Piece::Count(number as u64),
        Piece::Text(b" "),
        Piece::Count(count as u64),
        Piece::Text(b"\n"),
    ];
    write_pieces(sink, &pieces)
}

#[tactic(auto, unfolding(crate::specs::Lines::fire_line))]
fn write_fire_line<K: Sink>(id: u32, sink: &mut K) -> Result<(), WriteFault>
    ensures { Sends K.written K.flushed K.faults (fire_line id) sink.old sink.new result }
{
    let pieces = [
        Piece::Text(b"fire "),
        Piece::Count(id as u64),
        Piece::Text(b"\n"),
    ];
    write_pieces(sink, &pieces)
}

#[tactic(auto, unfolding(loop_report::specs::Loops::sets_line))]
fn write_sets_line<K: Sink>(number: u32, count: u32, sink: &mut K) -> Result<(), WriteFault>
    ensures { Sends K.written K.flushed K.faults (sets_line number count) sink.old sink.new result }
{
    let pieces = [
        Piece::Text(b"loops "),
        Piece::Count(number as u64),
        Piece::Text(b" sets "),
        Piece::Count(count as u64),
        Piece::Text(b"\n"),
    ];
    write_pieces(sink, &pieces)
}

#[tactic(auto, unfolding(loop_report::specs::Loops::crowded_line))]
fn write_crowded_line<K: Sink>(number: u32, sink: &mut K) -> Result<(), WriteFault>
    ensures { Sends K.written K.flushed K.faults (crowded_line number) sink.old sink.new result }
{
    let pieces = [
        Piece::Text(b"loops "),
        Piece::Count(number as u64),
        Piece::Text(b" crowded\n"),
    ];
    write_pieces(sink, &pieces)
}

#[tactic(auto, unfolding(crate::specs::Lines::cell_line))]
fn write_cell_line<K: Sink>(a: u32, b: u32, sink: &mut K) -> Result<(), WriteFault>
    ensures { Sends K.written K.flushed K.faults (cell_line a b) sink.old sink.new result }
{
    let pieces = [
        Piece::Text(b"cell "),
        Piece::Count(a as u64),
        Piece::Text(b" "),
        Piece::Count(b as u64),
        Piece::Text(b"\n"),
    ];
    write_pieces(sink, &pieces)
}

/// The word of a label.
fn label_word(label: Label) -> &'static [u8]
    ensures { result.now ≡ label_word label }
{
    match label {
        Label::East => b"east",
        Label::West => b"west",
        Label::North => b"north",
        Label::South => b"south",
    }
}

#[tactic(auto, unfolding(crate::specs::Lines::corner_line))]
fn write_corner_line<K: Sink>(a: u32, b: u32, label: Label, sink: &mut K) -> Result<(), WriteFault>
    ensures { Sends K.written K.flushed K.faults (corner_line a b label) sink.old sink.new result }
{
    let pieces = [
        Piece::Text(b"corner "),
        Piece::Count(a as u64),
        Piece::Text(b" "),
        Piece::Count(b as u64),
        Piece::Text(b" "),
        Piece::Text(label_word(label)),
        Piece::Text(b"\n"),
    ];
    write_pieces(sink, &pieces)
}

#[tactic(auto, unfolding(loop_report::specs::Loops::done_line))]
fn write_done_line<K: Sink>(number: u32, sink: &mut K) -> Result<(), WriteFault>
    ensures { Sends K.written K.flushed K.faults (done_line number) sink.old sink.new result }
{
    let pieces = [
        Piece::Text(b"done "),
        Piece::Count(number as u64),
        Piece::Text(b"\n"),
    ];
    write_pieces(sink, &pieces)
}

/// Writes a line of a bundle. After an error, which is a failed write, a prefix of the line was taken. It takes no memory.
pub fn write_line<K: Sink>(line: BundleLine, sink: &mut K) -> Result<(), WriteFault>
    ensures { Sends K.written K.flushed K.faults (line_text line) sink.old sink.new result }
{
    match line {
        BundleLine::Bundle(size) => write_bundle_line(size, sink),
        BundleLine::Fires(number, count) => write_fires_line(number, count, sink),
        BundleLine::Fire(id) => write_fire_line(id, sink),
        BundleLine::Sets(number, count) => write_sets_line(number, count, sink),
        BundleLine::Crowded(number) => write_crowded_line(number, sink),
        BundleLine::Cell(a, b) => write_cell_line(a, b, sink),
        BundleLine::Corner(a, b, label) => write_corner_line(a, b, label, sink),
        BundleLine::Done(number) => write_done_line(number, sink),
    }
}
