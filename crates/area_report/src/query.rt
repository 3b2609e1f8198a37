//! The lines of a query.

ghost use Rattle.std.specs.Prelude.{◌≡◌};
ghost use Rattle.tube_io.specs.Sends.{Sends};
ghost use Rattle.area_report.specs.Areas.{area_text, chart_line, coverage_text, crowded_line, done_line, empty_line, figures_line};
ghost use Rattle.area_report.specs.Marks.{all_marks, counts_of};

use crate::coverage::Coverage;
use crate::marks::{Counts, count_marks};
use crate::rows::write_rows;
use area_paver::Area;
use text_pieces::{Piece, write_pieces};
use tube_io::{Sink, WriteFault};

#[tactic(auto, unfolding(crate::specs::Areas::empty_line))]
fn write_empty_line<K: Sink>(number: u32, sink: &mut K) -> Result<(), WriteFault>
    ensures { Sends K.written K.flushed K.faults (empty_line number) sink.old sink.new result }
{
    let pieces = [
        Piece::Text(b"area "),
        Piece::Count(number as u64),
        Piece::Text(b" empty\n"),
    ];
    write_pieces(sink, &pieces)
}

#[tactic(auto, unfolding(crate::specs::Areas::crowded_line))]
fn write_crowded_line<K: Sink>(number: u32, sink: &mut K) -> Result<(), WriteFault>
    ensures { Sends K.written K.flushed K.faults (crowded_line number) sink.old sink.new result }
{
    let pieces = [
        Piece::Text(b"area "),
        Piece::Count(number as u64),
        Piece::Text(b" crowded\n"),
    ];
    write_pieces(sink, &pieces)
}

#[tactic(auto, unfolding(crate::specs::Areas::figures_line))]
fn write_figures_line<K: Sink>(
    number: u32,
    chart: &Area,
    counts: Counts,
    sink: &mut K,
) -> Result<(), WriteFault>
    ensures { Sends K.written K.flushed K.faults (figures_line number chart.now.columns chart.now.rows counts) sink.old sink.new result }
{
    let pieces = [
        Piece::Text(b"area "),
        Piece::Count(number as u64),
        Piece::Text(b" columns "),
        Piece::Count(chart.columns() as u64),
        Piece::Text(b" rows "),
        Piece::Count(chart.rows() as u64),
        Piece::Text(b" west "),
        Piece::Number(chart.west()),
        Piece::Text(b" south "),
        Piece::Number(chart.south()),
        Piece::Text(b" never "),
        Piece::Count(counts.never_seen),
        Piece::Text(b" seen "),
        Piece::Count(counts.surely_seen),
        Piece::Text(b" open "),
        Piece::Count(counts.left_open),
        Piece::Text(b"\n"),
    ];
    write_pieces(sink, &pieces)
}

fn write_chart_line<K: Sink>(number: u32, chart: &Area, sink: &mut K) -> Result<(), WriteFault>
    ensures { Sends K.written K.flushed K.faults (chart_line number chart.now) sink.old sink.new result }
{
    let counts = count_marks(chart);
    write_figures_line(number, chart, counts, sink)
}

#[tactic(auto, unfolding(crate::specs::Areas::done_line))]
fn write_done_line<K: Sink>(number: u32, sink: &mut K) -> Result<(), WriteFault>
    ensures { Sends K.written K.flushed K.faults (done_line number) sink.old sink.new result }
{
    let pieces = [
        Piece::Text(b"done "),
        Piece::Count(number as u64),
        Piece::Text(b"\n"),
    ];
    write_pieces(sink, &pieces)
}

fn write_chart<K: Sink>(
    number: u32,
    chart: &Area,
    brief: bool,
    sink: &mut K,
) -> Result<(), WriteFault>
    ensures { Sends K.written K.flushed K.faults (coverage_text number (Coverage.Charted chart.now) brief) sink.old sink.new result }
{
    write_chart_line(number, chart, sink)?;
    write_rows(chart, brief, sink)
}

fn write_coverage<K: Sink>(
    number: u32,
    coverage: &Coverage,
    brief: bool,
    sink: &mut K,
) -> Result<(), WriteFault>
    ensures { Sends K.written K.flushed K.faults (coverage_text number coverage.now brief) sink.old sink.new result }
{
    match coverage {
        Coverage::Empty => write_empty_line(number, sink),
        Coverage::Crowded => write_crowded_line(number, sink),
        Coverage::Charted(chart) => write_chart(number, chart, brief, sink),
    }
}

/// Writes what is told of the area of the query with a number, from 1 on. With `brief` no row is written. After an error, which is a
/// failed write, a prefix of the text was taken. It takes no memory.
pub fn write_area<K: Sink>(
    number: u32,
    coverage: &Coverage,
    brief: bool,
    sink: &mut K,
) -> Result<(), WriteFault>
    ensures { Sends K.written K.flushed K.faults (area_text number coverage.now brief) sink.old sink.new result }
{
    write_coverage(number, coverage, brief, sink)?;
    write_done_line(number, sink)
}
