//! The text of a section.

ghost use Rattle.std.specs.Prelude.{◌≡◌, ℕ, List, ◌+◌, ◌++◌, ◌≤◌, ◌↔◌, [], All, IsNone, IsSome, flat_map, length, take, unwrap_or};
ghost use Rattle.mission_items.specs.Made.{signals_in, signals_made, variables_in, variables_made};
ghost use Rattle.mission_items.specs.Names.{names_of};
ghost use Rattle.mission_items.specs.declared.item.Item.{Item};
ghost use Rattle.log_spelling.specs.References.{part_text, reference_text};
ghost use Rattle.tube_io.specs.Sends.{Sends};
ghost use Rattle.tube_report.specs.Lines.{first_line, last_line, range_text, var_line, verdict_word};
ghost use Rattle.tube_report.specs.Places.{Stands, listed, names_at, places_of};
ghost use Rattle.tube_report.specs.Sections.{box_text, section_text, signal_text, variable_line, variable_text};

use crate::listed::{Place, Places};
use crate::tube::{held, write_brief, write_tube};
use int_interval::Interval;
use log_spelling::Part;
use mission_items::{Item, Mission};
use text_pieces::{Piece, write_pieces};
use tube_io::{Sink, Text, WriteFault};
use tube_store::{SignalId, Store, VarId};

/// How a section ended.
#[derive(Clone, Copy, Debug, PartialEq, Eq)]
pub enum Verdict {
    /// Its box is the greatest common fixpoint.
    Settled,
    /// There is no common fixpoint.
    Empty,
    /// The budget was spent, and the box may still narrow.
    Spent,
}

impl Verdict {
    // The word of the report.
    fn word(self) -> &'static [u8]
        ensures { result.now ≡ verdict_word self }
    {
        match self {
            Verdict::Settled => b"settled",
            Verdict::Empty => b"empty",
            Verdict::Spent => b"spent",
        }
    }
}

// ---- lines

#[tactic(auto, unfolding(crate::specs::Lines::first_line))]
fn write_first_line<K: Sink>(number: u32, verdict: Verdict, sink: &mut K) -> Result<(), WriteFault>
    ensures { Sends K.written K.flushed K.faults (first_line number verdict) sink.old sink.new result }
{
    let pieces = [
        Piece::Text(b"section "),
        Piece::Count(number as u64),
        Piece::Text(b" "),
        Piece::Text(verdict.word()),
        Piece::Text(b"\n"),
    ];
    write_pieces(sink, &pieces)
}

#[tactic(auto, unfolding(crate::specs::Lines::last_line))]
fn write_last_line<K: Sink>(number: u32, sink: &mut K) -> Result<(), WriteFault>
    ensures { Sends K.written K.flushed K.faults (last_line number) sink.old sink.new result }
{
    let pieces = [
        Piece::Text(b"end "),
        Piece::Count(number as u64),
        Piece::Text(b"\n"),
    ];
    write_pieces(sink, &pieces)
}

// The end of a variable's line: what stands after its name.
fn write_range<K: Sink>(part: Part, range: Interval, sink: &mut K) -> Result<(), WriteFault>
    ensures { Sends K.written K.flushed K.faults (part_text part ++ range_text range) sink.old sink.new result }
{
    let pieces = [
        Piece::Text(part.text()),
        Piece::Text(b" "),
        Piece::Number(range.lo()),
        Piece::Text(b" "),
        Piece::Number(range.hi()),
        Piece::Text(b"\n"),
    ];
    write_pieces(sink, &pieces)
}

fn write_var_line<K: Sink>(
    name: &Text,
    part: Part,
    range: Interval,
    sink: &mut K,
) -> Result<(), WriteFault>
    ensures { Sends K.written K.flushed K.faults (var_line (reference_text name.now part) range) sink.old sink.new result }
{
    let pieces = [Piece::Text(b"var "), Piece::Text(name.bytes())];
    write_pieces(sink, &pieces)?;
    write_range(part, range, sink)
}

// ---- signals and variables

// What a record declares among the signals, where its signal would be `signal`.
fn write_signal<K: Sink>(
    item: &Item,
    signal: SignalId,
    store: &Store,
    brief: bool,
    sink: &mut K,
) -> Result<(), WriteFault>
    requires signal { signal.0 + signals_made item.now ≤ length store.now.shape.signals }
    requires filled { IsSome store.now.box }
    ensures { (before : List Item) → signals_in before ≡ signal.0 → Sends K.written K.flushed K.faults
        (flat_map (signal_text store.now.shape (unwrap_or store.now.box []) brief) (names_of before item.now)) sink.old sink.new result }
{
    match item {
        Item::Signal { name, .. } if brief => write_brief(name, signal, store, sink),
        Item::Signal { name, .. } => write_tube(name, signal, store, sink),
        _ => Ok(()),
    }
}

// What the record at a place declares among the signals.
fn write_signal_at<K: Sink>(
    items: &[Item],
    place: &Place,
    store: &Store,
    brief: bool,
    sink: &mut K,
) -> Result<(), WriteFault>
    requires stands { Stands items.now place.now }
    requires signals { length store.now.shape.signals ≡ signals_in items.now }
    requires filled { IsSome store.now.box }
    ensures { Sends K.written K.flushed K.faults
        (flat_map (signal_text store.now.shape (unwrap_or store.now.box []) brief) (names_at items.now place.now)) sink.old sink.new result }
{
    write_signal(
        &items[place.index],
        SignalId(place.signals),
        store,
        brief,
        sink,
    )
}

fn write_signals<K: Sink>(
    items: &[Item],
    places: &[Place],
    store: &Store,
    brief: bool,
    sink: &mut K,
) -> Result<(), WriteFault>
    requires stand { All (Stands items.now) places.now }
    requires signals { length store.now.shape.signals ≡ signals_in items.now }
    requires filled { IsSome store.now.box }
    ensures { Sends K.written K.flushed K.faults
        (flat_map (λ place. flat_map (signal_text store.now.shape (unwrap_or store.now.box []) brief) (names_at items.now place)) places.now) sink.old sink.new result }
{
    for place in places {
        write_signal_at(items, place, store, brief, sink)?;
    }
    Ok(())
}

// The coordinates of a beacon, of which the first is `var` and the second the variable after it.
fn write_beacon<K: Sink>(
    name: &Text,
    var: VarId,
    store: &Store,
    sink: &mut K,
) -> Result<(), WriteFault>
    requires var { var.0 + 2 ≤ length store.now.shape.vars }
    requires filled { IsSome store.now.box }
    ensures { Sends K.written K.flushed K.faults
        (variable_line store.now.shape (unwrap_or store.now.box []) (reference_text name.now Part.X) var.0 ++ variable_line store.now.shape (unwrap_or store.now.box []) (reference_text name.now Part.Y) (var.0 + 1)) sink.old sink.new result }
{
    store.known();
    let x = held(store, store.var(var));
    write_var_line(name, Part::X, x, sink)?;
    let y = held(store, store.var(VarId(var.0 + 1)));
    write_var_line(name, Part::Y, y, sink)
}

// What a record declares among the variables, where its first variable would be `var`.
fn write_variable<K: Sink>(
    item: &Item,
    var: VarId,
    store: &Store,
    sink: &mut K,
) -> Result<(), WriteFault>
    requires var { var.0 + variables_made item.now ≤ length store.now.shape.vars }
    requires filled { IsSome store.now.box }
    ensures { (before : List Item) → variables_in before ≡ var.0 → Sends K.written K.flushed K.faults
        (flat_map (variable_text store.now.shape (unwrap_or store.now.box [])) (names_of before item.now)) sink.old sink.new result }
{
    match item {
        Item::Variable { name, .. } => {
            write_var_line(name, Part::Whole, held(store, store.var(var)), sink)
        }
        Item::Beacon { name, .. } => write_beacon(name, var, store, sink),
        _ => Ok(()),
    }
}

// What the record at a place declares among the variables.
fn write_variable_at<K: Sink>(
    items: &[Item],
    place: &Place,
    store: &Store,
    sink: &mut K,
) -> Result<(), WriteFault>
    requires stands { Stands items.now place.now }
    requires variables { length store.now.shape.vars ≡ variables_in items.now }
    requires filled { IsSome store.now.box }
    ensures { Sends K.written K.flushed K.faults
        (flat_map (variable_text store.now.shape (unwrap_or store.now.box [])) (names_at items.now place.now)) sink.old sink.new result }
{
    write_variable(&items[place.index], VarId(place.variables), store, sink)
}

fn write_variables<K: Sink>(
    items: &[Item],
    places: &[Place],
    store: &Store,
    sink: &mut K,
) -> Result<(), WriteFault>
    requires stand { All (Stands items.now) places.now }
    requires variables { length store.now.shape.vars ≡ variables_in items.now }
    requires filled { IsSome store.now.box }
    ensures { Sends K.written K.flushed K.faults
        (flat_map (λ place. flat_map (variable_text store.now.shape (unwrap_or store.now.box [])) (names_at items.now place)) places.now) sink.old sink.new result }
{
    for place in places {
        write_variable_at(items, place, store, sink)?;
    }
    Ok(())
}

// The lines of all signals and named variables, and none for the empty box.
fn write_box<K: Sink>(
    items: &[Item],
    places: &[Place],
    store: &Store,
    brief: bool,
    sink: &mut K,
) -> Result<(), WriteFault>
    requires places { places.now ≡ places_of items.now }
    requires signals { length store.now.shape.signals ≡ signals_in items.now }
    requires variables { length store.now.shape.vars ≡ variables_in items.now }
    ensures { Sends K.written K.flushed K.faults (box_text items.now store.now.shape store.now.box brief) sink.old sink.new result }
{
    if store.is_empty() {
        return Ok(());
    }
    write_signals(items, places, store, brief, sink)?;
    write_variables(items, places, store, sink)
}

// The section of these records.
#[tactic(auto, unfolding(crate::specs::Sections::section_text))]
fn write_records<K: Sink>(
    items: &[Item],
    places: &[Place],
    number: u32,
    verdict: Verdict,
    store: &Store,
    brief: bool,
    sink: &mut K,
) -> Result<(), WriteFault>
    requires places { places.now ≡ places_of items.now }
    requires signals { length store.now.shape.signals ≡ signals_in items.now }
    requires variables { length store.now.shape.vars ≡ variables_in items.now }
    ensures { Sends K.written K.flushed K.faults
        (section_text items.now number verdict store.now.shape store.now.box brief) sink.old sink.new result }
{
    write_first_line(number, verdict, sink)?;
    write_box(items, places, store, brief, sink)?;
    write_last_line(number, sink)
}

/// Writes the section of the first `upto` records of a mission, over a store with exactly the signals and
/// variables that these records make: its first line with its number and verdict, each signal in order of
/// declaration, each named variable in order of declaration, and its last line. A signal is written slice
/// by slice, or with `brief` in one line. The empty box has only the first and the last line. After an
/// error, which is a failed write, a prefix of the section was taken. It takes no memory, and looks at no
/// other records than those that the list has.
pub fn write_section<K: Sink>(
    mission: &Mission,
    upto: usize,
    places: &Places,
    number: u32,
    verdict: Verdict,
    store: &Store,
    brief: bool,
    sink: &mut K,
) -> Result<(), WriteFault>
    requires upto { upto ≤ length mission.now.items }
    requires places { places.now ≡ listed (take upto mission.now.items) }
    requires signals { length store.now.shape.signals ≡ signals_in (take upto mission.now.items) }
    requires variables { length store.now.shape.vars ≡ variables_in (take upto mission.now.items) }
    requires empty { (verdict ≡ Verdict.Empty) ↔ IsNone store.now.box }
    ensures { Sends K.written K.flushed K.faults
        (section_text (take upto mission.now.items) number verdict store.now.shape store.now.box brief) sink.old sink.new result }
{
    let (items, _) = mission.items.as_slice().split_at(upto);
    write_records(items, places.places(), number, verdict, store, brief, sink)
}
