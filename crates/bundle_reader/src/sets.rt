//! Sets of a query.

ghost use Rattle.std.specs.Prelude.{◌≡◌, ◌≤◌, ◌↔◌, [], IfOk, IsTrue, length};
ghost use Rattle.std.specs.List.{AllByRecursion};
ghost use Rattle.bundle_text.specs.Bundles.{FindingFits, IsNumber, IsPair, IsTracedSet, ToldOfDegree, set_text, sets_text};
ghost use Rattle.bundle_reader.specs.Fronts.{Anything, IsInFront, ReadsFront};
ghost use Rattle.bundle_reader.specs.Sets.{AfterSet, AreCounted, IsSetLine, finding_line, set_line, spans_text};

use crate::many::all;
use crate::words::{after, count_after, degree_after, number_after, ticks_after};
use bundle_text::{Label, Listed, TracedSet};
use loop_sets::Finding;
use std::alloc::Global;
use tplane_paver::Run;
use tube_io::NoMemory;

/// What the line of a set says, its number aside.
#[derive(Clone, Copy)]
pub(crate) struct SetLine {
    pairs: u64,
    a: (u32, u32),
    b: (u32, u32),
    finding: Finding,
}

fn finding_of(bytes: &[u8]) -> Option<(Finding, &[u8])>
    ensures { ReadsFront finding_line FindingFits Anything bytes.now result }
{
    if let Some(rest) = after(bytes, b"possible\n") {
        return Some((Finding::Unproved, rest));
    }
    if let Some(((a, b), rest)) = ticks_after(bytes, b"proved sure ", b'\n') {
        return Some((Finding::Sure(a, b), rest));
    }
    let (degree, rest) = degree_after(bytes, b"proved degree ", b'\n')?;
    Some((Finding::Degree(degree), rest))
}

// The least and the greatest ticks of both signals.
fn spans_of(bytes: &[u8]) -> Option<(((u32, u32), (u32, u32)), &[u8])>
    ensures { ReadsFront spans_text (λ s. IsPair s.0 × IsPair s.1) Anything bytes.now result }
{
    let (a, rest) = ticks_after(bytes, b"a ", b' ')?;
    let (b, rest) = ticks_after(rest, b"b ", b' ')?;
    Some(((a, b), rest))
}

// The line of the set with this number.
fn line_of(bytes: &[u8], number: u32) -> Option<(SetLine, &[u8])>
    ensures { ReadsFront (set_line number) IsSetLine Anything bytes.now result }
{
    let (found, rest) = number_after(bytes, b"set ", b' ')?;
    if found != number {
        return None;
    }
    let (pairs, rest) = count_after(rest, b"pairs ", b' ')?;
    let ((a, b), rest) = spans_of(rest)?;
    let (finding, rest) = finding_of(rest)?;
    Some((
        SetLine {
            pairs,
            a,
            b,
            finding,
        },
        rest,
    ))
}

// Whether cells and corners may be told of a set of which this is found.
fn may_tell(finding: Finding, cells: &[(u32, u32)], corners: &[(u32, u32, Label)]) -> bool
    ensures { IsTrue result ↔ ToldOfDegree finding cells.now corners.now }
{
    match finding {
        Finding::Degree(_) => true,
        _ => cells.is_empty() && corners.is_empty(),
    }
}

// The set with this number.
fn set_of(alloc: Global, bytes: &[u8], number: u32) -> Result<Option<(TracedSet, &[u8])>, NoMemory>
    requires { length bytes.now ≤ 1000000000 }
    ensures { IfOk result (ReadsFront (set_text number) IsTracedSet AfterSet bytes.now) }
{
    let Some((line, rest)) = line_of(bytes, number) else {
        return Ok(None);
    };
    let (runs, rest) = all::<Run>(alloc, rest)?;
    let (cells, rest) = all::<(u32, u32)>(alloc, rest)?;
    let (corners, rest) = all::<(u32, u32, Label)>(alloc, rest)?;
    if runs.as_slice().is_empty() {
        return Ok(None);
    }
    if !may_tell(line.finding, cells.as_slice(), corners.as_slice()) {
        return Ok(None);
    }
    let set = TracedSet {
        pairs: line.pairs,
        a: line.a,
        b: line.b,
        finding: line.finding,
        runs,
        cells,
        corners,
    };
    Ok(Some((set, rest)))
}

/// So many sets, numbered from 1 on.
pub(crate) fn sets_of(
    alloc: Global,
    bytes: &[u8],
    count: u32,
) -> Result<Option<(Listed<TracedSet>, &[u8])>, NoMemory>
    requires { length bytes.now ≤ 1000000000 }
    ensures { IfOk result (ReadsFront (sets_text 1) (AreCounted count) AfterSet bytes.now) }
{
    let mut sets = Vec::new(alloc);
    let mut rest = bytes;
    for read in 0..count {
        let Some((set, others)) = set_of(alloc, rest, read + 1)? else {
            return Ok(None);
        };
        sets.push(set)?;
        rest = others;
    }
    Ok(Some((Listed::new(sets), rest)))
}
