//! The lines of a signal: in full, slice by slice, or in brief.

ghost use Rattle.std.specs.Prelude.{◌≡◌, ◌+◌, ◌-◌, ◌<◌, [], IsSome, flat_map, length, unwrap_or};
ghost use Rattle.std.specs.List.{range_with_len};
ghost use Rattle.tube_io.specs.Sends.{Sends};
ghost use Rattle.tube_spec.specs.Limits.{greatest_bound};
ghost use Rattle.tube_spec.specs.Span.{IsBounded, IsProper};
ghost use Rattle.tube_spec.specs.Box.{cell_at};
ghost use Rattle.tube_report.specs.Lines.{brief_line, gate_line, signal_line, slice_line};
ghost use Rattle.tube_report.specs.Sections.{brief_text, envelope_text, gate_text, slice_text, tube_range, tube_text, tube_width};

use int_interval::Interval;
use text_pieces::{Piece, write_pieces};
use tube_io::{Sink, Text, WriteFault};
use tube_store::{CellId, SignalId, Store};

// ---- lines

#[tactic(auto, unfolding(crate::specs::Lines::signal_line))]
fn write_signal_line<K: Sink>(name: &Text, sink: &mut K) -> Result<(), WriteFault>
    ensures { Sends K.written K.flushed K.faults (signal_line name.now) sink.old sink.new result }
{
    let pieces = [
        Piece::Text(b"signal "),
        Piece::Text(name.bytes()),
        Piece::Text(b"\n"),
    ];
    write_pieces(sink, &pieces)
}

#[tactic(auto, unfolding(crate::specs::Lines::gate_line))]
fn write_gate_line<K: Sink>(tick: u32, range: Interval, sink: &mut K) -> Result<(), WriteFault>
    ensures { Sends K.written K.flushed K.faults (gate_line tick range) sink.old sink.new result }
{
    let pieces = [
        Piece::Text(b"gate "),
        Piece::Count(tick as u64),
        Piece::Text(b" "),
        Piece::Number(range.lo()),
        Piece::Text(b" "),
        Piece::Number(range.hi()),
        Piece::Text(b"\n"),
    ];
    write_pieces(sink, &pieces)
}

#[tactic(auto, unfolding(crate::specs::Lines::slice_line))]
fn write_slice_line<K: Sink>(
    from: u32,
    to: u32,
    range: Interval,
    sink: &mut K,
) -> Result<(), WriteFault>
    ensures { Sends K.written K.flushed K.faults (slice_line from to range) sink.old sink.new result }
{
    let pieces = [
        Piece::Text(b"slice "),
        Piece::Count(from as u64),
        Piece::Text(b" "),
        Piece::Count(to as u64),
        Piece::Text(b" "),
        Piece::Number(range.lo()),
        Piece::Text(b" "),
        Piece::Number(range.hi()),
        Piece::Text(b"\n"),
    ];
    write_pieces(sink, &pieces)
}

#[tactic(auto, unfolding(crate::specs::Lines::brief_line))]
fn write_brief_line<K: Sink>(
    name: &Text,
    range: Interval,
    sum: u64,
    sink: &mut K,
) -> Result<(), WriteFault>
    ensures { Sends K.written K.flushed K.faults (brief_line name.now range sum) sink.old sink.new result }
{
    let pieces = [
        Piece::Text(b"brief "),
        Piece::Text(name.bytes()),
        Piece::Text(b" "),
        Piece::Number(range.lo()),
        Piece::Text(b" "),
        Piece::Number(range.hi()),
        Piece::Text(b" "),
        Piece::Count(sum),
        Piece::Text(b"\n"),
    ];
    write_pieces(sink, &pieces)
}

// ---- a signal in full

/// What a store that is not empty holds in a cell.
pub(crate) fn held(store: &Store, c: CellId) -> Interval
    requires named { c.0 < store.now.shape.cells }
    requires filled { IsSome store.now.box }
    ensures value { result ≡ cell_at (unwrap_or store.now.box []) c.0 }
    ensures proper { IsProper result }
    ensures bounded { IsBounded greatest_bound result }
{
    store.get(c)
}

fn write_gate<K: Sink>(
    signal: SignalId,
    i: u32,
    store: &Store,
    sink: &mut K,
) -> Result<(), WriteFault>
    requires signal { signal.0 < length store.now.shape.signals }
    requires boundary { i < length store.now.shape.grid }
    requires filled { IsSome store.now.box }
    ensures { Sends K.written K.flushed K.faults
        (gate_text store.now.shape (unwrap_or store.now.box []) signal.0 i) sink.old sink.new result }
{
    let range = held(store, store.gate(signal, i));
    write_gate_line(store.grid().boundary(i), range, sink)
}

fn write_envelope<K: Sink>(
    signal: SignalId,
    i: u32,
    store: &Store,
    sink: &mut K,
) -> Result<(), WriteFault>
    requires signal { signal.0 < length store.now.shape.signals }
    requires slice { i + 1 < length store.now.shape.grid }
    requires filled { IsSome store.now.box }
    ensures { Sends K.written K.flushed K.faults
        (envelope_text store.now.shape (unwrap_or store.now.box []) signal.0 i) sink.old sink.new result }
{
    let grid = store.grid();
    let range = held(store, store.envelope(signal, i));
    write_slice_line(grid.boundary(i), grid.boundary(i + 1), range, sink)
}

// The envelope over a slice, and the gate on its right.
fn write_slice<K: Sink>(
    signal: SignalId,
    i: u32,
    store: &Store,
    sink: &mut K,
) -> Result<(), WriteFault>
    requires signal { signal.0 < length store.now.shape.signals }
    requires slice { i + 1 < length store.now.shape.grid }
    requires filled { IsSome store.now.box }
    ensures { Sends K.written K.flushed K.faults
        (slice_text store.now.shape (unwrap_or store.now.box []) signal.0 i) sink.old sink.new result }
{
    store.known();
    write_envelope(signal, i, store, sink)?;
    write_gate(signal, i + 1, store, sink)
}

fn write_slices<K: Sink>(signal: SignalId, store: &Store, sink: &mut K) -> Result<(), WriteFault>
    requires signal { signal.0 < length store.now.shape.signals }
    requires filled { IsSome store.now.box }
    ensures { Sends K.written K.flushed K.faults
        (flat_map (slice_text store.now.shape (unwrap_or store.now.box []) signal.0) (range_with_len 0 (length store.now.shape.grid - 1))) sink.old sink.new result }
{
    for i in 0..store.slices() {
        write_slice(signal, i, store, sink)?;
    }
    Ok(())
}

#[tactic(auto, unfolding(crate::specs::Sections::tube_text))]
pub(crate) fn write_tube<K: Sink>(
    name: &Text,
    signal: SignalId,
    store: &Store,
    sink: &mut K,
) -> Result<(), WriteFault>
    requires signal { signal.0 < length store.now.shape.signals }
    requires filled { IsSome store.now.box }
    ensures { Sends K.written K.flushed K.faults
        (tube_text store.now.shape (unwrap_or store.now.box []) name.now signal.0) sink.old sink.new result }
{
    store.known();
    write_signal_line(name, sink)?;
    write_gate(signal, 0, store, sink)?;
    write_slices(signal, store, sink)
}

// ---- a signal in brief

// The least interval that holds each cell of a signal, and the sum of their widths.
struct Summary {
    range: Interval,
    sum: u64,
}

fn summary_of(signal: SignalId, store: &Store) -> Summary
    requires signal { signal.0 < length store.now.shape.signals }
    requires filled { IsSome store.now.box }
    ensures range { result.range ≡ tube_range store.now.shape (unwrap_or store.now.box []) signal.0 }
    ensures sum { result.sum ≡ tube_width store.now.shape (unwrap_or store.now.box []) signal.0 }
{
    store.grid().known();
    let first = held(store, store.gate(signal, 0));
    let mut range = first;
    let mut sum = first.width();
    for i in 0..store.slices() {
        let envelope = held(store, store.envelope(signal, i));
        let gate = held(store, store.gate(signal, i + 1));
        range = range.hull(envelope).hull(gate);
        sum += envelope.width() + gate.width();
    }
    Summary { range, sum }
}

#[tactic(auto, unfolding(crate::specs::Sections::brief_text))]
pub(crate) fn write_brief<K: Sink>(
    name: &Text,
    signal: SignalId,
    store: &Store,
    sink: &mut K,
) -> Result<(), WriteFault>
    requires signal { signal.0 < length store.now.shape.signals }
    requires filled { IsSome store.now.box }
    ensures { Sends K.written K.flushed K.faults
        (brief_text store.now.shape (unwrap_or store.now.box []) name.now signal.0) sink.old sink.new result }
{
    let Summary { range, sum } = summary_of(signal, store);
    write_brief_line(name, range, sum, sink)
}
