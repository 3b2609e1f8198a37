//! Sections with the firings that are listed of them.

ghost use Rattle.std.specs.Prelude.{◌≡◌, ◌≤◌, ◌↔◌, IfOk, IsTrue, MatchOption, length, slice_index};
ghost use Rattle.report_reader.specs.Sections.{IsSection, text_of};
ghost use Rattle.bundle_text.specs.Bundles.{IsTracedSection, section_text};
ghost use Rattle.bundle_reader.specs.Fronts.{Anything, NoneInFront, ReadsFront};
ghost use Rattle.bundle_reader.specs.Pieces.{IsPiece};

use crate::many::{Told, all};
use crate::words::ticks_after;
use bundle_text::TracedSection;
use report_reader::{Section, SectionFault, cut, read_section};
use std::alloc::Global;
use tube_io::NoMemory;

// Whether a line begins as the last line of a section does, and as no other of its lines.
fn is_last(line: &[u8]) -> bool
    ensures { IsTrue result ↔ (slice_index line.now 0 ≡ 101) }
{
    match line {
        [b'e', ..] => true,
        _ => false,
    }
}

// The bytes to the end of the first such line, and what follows them.
fn piece_of(bytes: &[u8]) -> Option<(&[u8], &[u8])>
    ensures { MatchOption result (NoneInFront text_of IsSection Anything bytes.now) (λ p. IsPiece bytes.now p.0.now p.1.now) }
{
    let mut rest = bytes;
    while let Some((line, others)) = cut(rest, b'\n') {
        if is_last(line) {
            return Some(bytes.split_at(bytes.len() - others.len()));
        }
        rest = others;
    }
    None
}

fn section_of(alloc: Global, bytes: &[u8]) -> Result<Option<(Section, &[u8])>, NoMemory>
    requires { length bytes.now ≤ 1000000000 }
    ensures { IfOk result (ReadsFront text_of IsSection Anything bytes.now) }
{
    let Some((text, rest)) = piece_of(bytes) else {
        return Ok(None);
    };
    match read_section(alloc, text) {
        Ok(section) => Ok(Some((section, rest))),
        Err(SectionFault::BadSection(_)) => Ok(None),
        Err(SectionFault::NoMemory) => Err(NoMemory),
    }
}

fn traced_of(alloc: Global, bytes: &[u8]) -> Result<Option<(TracedSection, &[u8])>, NoMemory>
    requires { length bytes.now ≤ 1000000000 }
    ensures { IfOk result (ReadsFront section_text IsTracedSection Anything bytes.now) }
{
    let Some(((number, count), rest)) = ticks_after(bytes, b"fires ", b'\n') else {
        return Ok(None);
    };
    let (fired, rest) = all::<u32>(alloc, rest)?;
    if fired.as_slice().len() != count as usize {
        return Ok(None);
    }
    let Some((section, rest)) = section_of(alloc, rest)? else {
        return Ok(None);
    };
    if section.number != number {
        return Ok(None);
    }
    Ok(Some((TracedSection { fired, section }, rest)))
}

impl Told for TracedSection {
    ghost use Rattle.bundle_reader.specs.Bytes.{section_some};

    ghost text = { section_text };

    ghost IsTold = { IsTracedSection };

    ghost some = { section_some };

    fn read(alloc: Global, bytes: &[u8]) -> Result<Option<(TracedSection, &[u8])>, NoMemory> {
        traced_of(alloc, bytes)
    }
}
