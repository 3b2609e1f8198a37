//! The lines of a chart's rows.

ghost use Rattle.std.specs.Prelude.{◌≡◌, ◌<◌, ◌≤◌, ◌+◌, ◌^◌, ◌++◌, codes, length, map, take, drop};
ghost use Rattle.std.specs.Fmt.{signed_decimal};
ghost use Rattle.tube_io.specs.Sends.{Sends};
ghost use Rattle.area_paver.specs.Lattice.{coordinate};
ghost use Rattle.area_report.specs.Areas.{mark_byte, row_line, rows_text};
ghost use Rattle.area_report.specs.Marks.{row_marks};

use crate::marks::marked_rows;
use area_paver::{Area, Mark};
use text_pieces::{Piece, write_pieces};
use tube_io::{Sink, WriteFault, write_all};

/// How many marks go to the sink at once, at most.
const MOST_AT_ONCE: usize = 4096;

/// The byte of a mark.
fn mark_byte(mark: Mark) -> u8
    ensures { result ≡ mark_byte mark }
{
    match mark {
        Mark::Never => b'.',
        Mark::Seen => b'#',
        Mark::Open => b'?',
    }
}

/// Fills a piece with the bytes of a row's marks from a column on.
fn fill(chart: &Area, row: u32, first: u32, piece: &mut [u8])
    requires row { row < chart.now.rows.count }
    requires columns { first + length piece.old ≤ chart.now.columns.count }
    requires narrow { chart.now.columns.count < 2 ^ 32 }
    ensures { piece.new ≡ take (length piece.old) (drop first (map mark_byte (row_marks chart.now row))) }
{
    for i in 0..piece.len() {
        piece[i] = mark_byte(chart.mark(first + i as u32, row));
    }
}

/// The bytes of a row's marks from a column on, as many as a piece has room for.
fn write_part<K: Sink>(
    chart: &Area,
    row: u32,
    first: u32,
    piece: &mut [u8],
    sink: &mut K,
) -> Result<(), WriteFault>
    requires row { row < chart.now.rows.count }
    requires columns { first + length piece.old ≤ chart.now.columns.count }
    requires narrow { chart.now.columns.count < 2 ^ 32 }
    ensures { Sends K.written K.flushed K.faults (take (length piece.old) (drop first (map mark_byte (row_marks chart.now row)))) sink.old sink.new result }
{
    fill(chart, row, first, piece);
    write_all(sink, piece)
}

/// The bytes of a row's marks, part by part.
fn write_marks<K: Sink>(
    chart: &Area,
    row: u32,
    piece: &mut [u8; MOST_AT_ONCE],
    sink: &mut K,
) -> Result<(), WriteFault>
    requires { row < chart.now.rows.count }
    ensures { Sends K.written K.flushed K.faults (map mark_byte (row_marks chart.now row)) sink.old sink.new result }
{
    let columns = chart.columns();
    let mut first = 0;
    while first < columns {
        let count = (columns - first).min(MOST_AT_ONCE as u32);
        write_part(chart, row, first, &mut piece[..count as usize], sink)?;
        first += count;
    }
    Ok(())
}

/// `row Y`, and a space.
fn write_row_front<K: Sink>(chart: &Area, row: u32, sink: &mut K) -> Result<(), WriteFault>
    requires { row < chart.now.rows.count }
    ensures { Sends K.written K.flushed K.faults (codes "row " ++ (signed_decimal (coordinate chart.now.rows row) ++ codes " ")) sink.old sink.new result }
{
    let pieces = [
        Piece::Text(b"row "),
        Piece::Number(chart.row_at(row)),
        Piece::Text(b" "),
    ];
    write_pieces(sink, &pieces)
}

/// The line of a row.
fn write_row<K: Sink>(
    chart: &Area,
    row: u32,
    piece: &mut [u8; MOST_AT_ONCE],
    sink: &mut K,
) -> Result<(), WriteFault>
    requires { row < chart.now.rows.count }
    ensures { Sends K.written K.flushed K.faults (row_line chart.now row) sink.old sink.new result }
{
    write_row_front(chart, row, sink)?;
    write_marks(chart, row, piece, sink)?;
    write_all(sink, b"\n")
}

/// The lines of all rows from the south, none in brief.
pub(crate) fn write_rows<K: Sink>(chart: &Area, brief: bool, sink: &mut K) -> Result<(), WriteFault>
    ensures { Sends K.written K.flushed K.faults (rows_text brief chart.now) sink.old sink.new result }
{
    if brief {
        return Ok(());
    }
    let mut piece = [0; MOST_AT_ONCE];
    for row in 0..marked_rows(chart) {
        write_row(chart, row, &mut piece, sink)?;
    }
    Ok(())
}
