//! Lines of a section, without the byte 10 that ends them.

ghost use Rattle.std.specs.Prelude.{◌≡◌, ◌≤◌, ◌↔◌, ◌++◌, ◌∷◌, [], ⊤, IfOk, IsTrue, codes};
ghost use Rattle.tube_report.specs.Lines.{last_line, verdict_word};
ghost use Rattle.report_reader.specs.Sections.{IsHead, IsLine, head_text, line_text};
ghost use Rattle.report_reader.specs.Words.{IsTicked, Reads, ticked_text};

use crate::section::Line;
use crate::words::{count_up_to, cut, is_reference, range_of};
use int_interval::Interval;
use log_spelling::is_name;
use slice_gates::MOST_TICKS;
use std::alloc::Global;
use tube_io::{NoMemory, Text};
use tube_report::Verdict;

const MOST_SECTIONS: u64 = 1_000_000;

// Whether two words are one.
fn same(word: &[u8], other: &[u8]) -> bool
    ensures { IsTrue result ↔ (word.now ≡ other.now) }
{
    word == other
}

// ---- the first and the last line

/// What a first line says.
#[derive(Clone, Copy)]
pub(crate) struct Head {
    pub(crate) number: u32,
    pub(crate) verdict: Verdict,
}

fn verdict_of(word: &[u8]) -> Option<Verdict>
    ensures { Reads verdict_word (λ _. ⊤) word.now result }
{
    if word == b"settled".as_slice() {
        return Some(Verdict::Settled);
    }
    if word == b"empty".as_slice() {
        return Some(Verdict::Empty);
    }
    if word == b"spent".as_slice() {
        return Some(Verdict::Spent);
    }
    None
}

/// The number and the verdict of a section's first line.
pub(crate) fn head_of(text: &[u8]) -> Option<Head>
    ensures { Reads head_text IsHead (text.now ++ 10 ∷ []) result }
{
    let Some((kind, rest)) = cut(text, b' ') else {
        return None;
    };
    if !same(kind, b"section") {
        return None;
    }
    let Some((number, verdict)) = cut(rest, b' ') else {
        return None;
    };
    let Some(number) = count_up_to(number, MOST_SECTIONS) else {
        return None;
    };
    if number == 0 {
        return None;
    }
    let Some(verdict) = verdict_of(verdict) else {
        return None;
    };
    Some(Head {
        number: number as u32,
        verdict,
    })
}

/// Whether it is the last line of the section with this number.
pub(crate) fn is_last(text: &[u8], number: u32) -> bool
    requires { number ≤ 1000000 }
    ensures { IsTrue result ↔ (last_line number ≡ text.now ++ 10 ∷ []) }
{
    let Some((kind, rest)) = cut(text, b' ') else {
        return false;
    };
    if !same(kind, b"end") {
        return false;
    }
    let Some(n) = count_up_to(rest, MOST_SECTIONS) else {
        return false;
    };
    n == number as u64
}

// ---- the lines between

/// A tick and a range.
#[derive(Clone, Copy)]
pub(crate) struct Ticked {
    tick: u32,
    range: Interval,
}

fn ticked_of(text: &[u8]) -> Option<Ticked>
    ensures { Reads ticked_text IsTicked text.now result }
{
    let Some((tick, range)) = cut(text, b' ') else {
        return None;
    };
    let Some(tick) = count_up_to(tick, MOST_TICKS as u64) else {
        return None;
    };
    let Some(range) = range_of(range) else {
        return None;
    };
    Some(Ticked {
        tick: tick as u32,
        range,
    })
}

fn signal_of(alloc: Global, rest: &[u8]) -> Result<Option<Line>, NoMemory>
    ensures { IfOk result (Reads line_text IsLine (codes "signal" ++ 32 ∷ (rest.now ++ 10 ∷ []))) }
{
    if !is_name(rest) {
        return Ok(None);
    }
    let name = Text::new(alloc, rest)?;
    Ok(Some(Line::Signal(name)))
}

fn gate_of(rest: &[u8]) -> Option<Line>
    ensures { Reads line_text IsLine (codes "gate" ++ 32 ∷ (rest.now ++ 10 ∷ [])) result }
{
    let Some(gate) = ticked_of(rest) else {
        return None;
    };
    Some(Line::Gate {
        tick: gate.tick,
        range: gate.range,
    })
}

fn slice_of(rest: &[u8]) -> Option<Line>
    ensures { Reads line_text IsLine (codes "slice" ++ 32 ∷ (rest.now ++ 10 ∷ [])) result }
{
    let Some((from, rest)) = cut(rest, b' ') else {
        return None;
    };
    let Some(from) = count_up_to(from, MOST_TICKS as u64) else {
        return None;
    };
    let Some(end) = ticked_of(rest) else {
        return None;
    };
    Some(Line::Slice {
        from: from as u32,
        to: end.tick,
        range: end.range,
    })
}

fn var_of(alloc: Global, rest: &[u8]) -> Result<Option<Line>, NoMemory>
    ensures { IfOk result (Reads line_text IsLine (codes "var" ++ 32 ∷ (rest.now ++ 10 ∷ []))) }
{
    let Some((name, range)) = cut(rest, b' ') else {
        return Ok(None);
    };
    if !is_reference(name) {
        return Ok(None);
    }
    let Some(range) = range_of(range) else {
        return Ok(None);
    };
    let name = Text::new(alloc, name)?;
    Ok(Some(Line::Var { name, range }))
}

/// What the line says, if it is one between the first and the last.
pub(crate) fn line_of(alloc: Global, text: &[u8]) -> Result<Option<Line>, NoMemory>
    ensures { IfOk result (Reads line_text IsLine (text.now ++ 10 ∷ [])) }
{
    let Some((kind, rest)) = cut(text, b' ') else {
        return Ok(None);
    };
    if same(kind, b"signal") {
        return signal_of(alloc, rest);
    }
    if same(kind, b"gate") {
        return Ok(gate_of(rest));
    }
    if same(kind, b"slice") {
        return Ok(slice_of(rest));
    }
    if same(kind, b"var") {
        return var_of(alloc, rest);
    }
    Ok(None)
}
