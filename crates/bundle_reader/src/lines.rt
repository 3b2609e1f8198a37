//! Lines of which a bundle has any number.

ghost use Rattle.std.specs.Prelude.{◌≡◌, ℕ, ◌++◌, ◌∷◌, []};
ghost use Rattle.bundle_text.specs.Bundles.{IsCorner, IsNumber, IsPair, IsRun, cell_text, corner_text, fire_text};
ghost use Rattle.bundle_text.specs.Lines.{label_word};
ghost use Rattle.loop_report.specs.Loops.{run_line};
ghost use Rattle.bundle_reader.specs.Fronts.{Anything, ReadsFront};
ghost use Rattle.bundle_reader.specs.Parts.{AnyLabel, label_text};

use crate::many::Told;
use crate::words::{after, number_after, ticks_after};
use bundle_text::Label;
use std::alloc::Global;
use tplane_paver::Run;
use tube_io::NoMemory;

fn fire_of(bytes: &[u8]) -> Option<(u32, &[u8])>
    ensures { ReadsFront fire_text IsNumber Anything bytes.now result }
{
    number_after(bytes, b"fire ", b'\n')
}

fn run_of(bytes: &[u8]) -> Option<(Run, &[u8])>
    ensures { ReadsFront run_line IsRun Anything bytes.now result }
{
    let (a, rest) = number_after(bytes, b"run ", b' ')?;
    let ((first, last), rest) = ticks_after(rest, b"", b'\n')?;
    if last < first {
        return None;
    }
    Some((Run { a, first, last }, rest))
}

fn cell_of(bytes: &[u8]) -> Option<((u32, u32), &[u8])>
    ensures { ReadsFront cell_text IsPair Anything bytes.now result }
{
    ticks_after(bytes, b"cell ", b'\n')
}

fn label_of(bytes: &[u8]) -> Option<(Label, &[u8])>
    ensures { ReadsFront label_text AnyLabel Anything bytes.now result }
{
    if let Some(rest) = after(bytes, b"east\n") {
        return Some((Label::East, rest));
    }
    if let Some(rest) = after(bytes, b"west\n") {
        return Some((Label::West, rest));
    }
    if let Some(rest) = after(bytes, b"north\n") {
        return Some((Label::North, rest));
    }
    let rest = after(bytes, b"south\n")?;
    Some((Label::South, rest))
}

fn corner_of(bytes: &[u8]) -> Option<((u32, u32, Label), &[u8])>
    ensures { ReadsFront corner_text IsCorner Anything bytes.now result }
{
    let ((a, b), rest) = ticks_after(bytes, b"corner ", b' ')?;
    let (label, rest) = label_of(rest)?;
    Some(((a, b, label), rest))
}

/// The number of a contractor that was fired.
impl Told for u32 {
    ghost use Rattle.bundle_reader.specs.Bytes.{fire_some};

    ghost text = { fire_text };

    ghost IsTold = { IsNumber };

    ghost some = { fire_some };

    fn read(_alloc: Global, bytes: &[u8]) -> Result<Option<(u32, &[u8])>, NoMemory> {
        Ok(fire_of(bytes))
    }
}

impl Told for Run {
    ghost use Rattle.bundle_reader.specs.Bytes.{run_some};

    ghost text = { run_line };

    ghost IsTold = { IsRun };

    ghost some = { run_some };

    fn read(_alloc: Global, bytes: &[u8]) -> Result<Option<(Run, &[u8])>, NoMemory> {
        Ok(run_of(bytes))
    }
}

/// A unit cell, named by its corner.
impl Told for (u32, u32) {
    ghost use Rattle.bundle_reader.specs.Bytes.{cell_some};

    ghost text = { cell_text };

    ghost IsTold = { IsPair };

    ghost some = { cell_some };

    fn read(_alloc: Global, bytes: &[u8]) -> Result<Option<((u32, u32), &[u8])>, NoMemory> {
        Ok(cell_of(bytes))
    }
}

/// A corner of a boundary with its label.
impl Told for (u32, u32, Label) {
    ghost use Rattle.bundle_reader.specs.Bytes.{corner_some};

    ghost text = { corner_text };

    ghost IsTold = { IsCorner };

    ghost some = { corner_some };

    fn read(_alloc: Global, bytes: &[u8]) -> Result<Option<((u32, u32, Label), &[u8])>, NoMemory> {
        Ok(corner_of(bytes))
    }
}
