//! The flags of marked parts.

ghost use Rattle.std.specs.Prelude.{◌≡◌, ◌≢◌, ◌<◌, ℕ, true, false, slice_index_or};
ghost use Rattle.ctc_parts.specs.Parts.{marked_in};

use crate::parts::Visit;
use std::ops::Range;

/// Whether a part is marked: its number lies in the range, and its flag is set. Past the last flag none is.
pub fn is_marked(marks: &[bool], within: &Range<u32>, i: u32) -> bool
    ensures { result ≡ marked_in marks.now within.now.start within.now.end i }
{
    within.start <= i && i < within.end && has_flag(marks, i)
}

/// Whether a flag is set. Past the last one none is.
pub fn has_flag(marks: &[bool], i: u32) -> bool
    ensures { result ≡ slice_index_or marks.now i false }
{
    match marks.get(i as usize) {
        Some(flag) => *flag,
        None => false,
    }
}

/// Clears a flag, and answers what it was.
pub fn take_flag(marks: &mut [bool], i: u32) -> bool
    ensures flag { result ≡ slice_index_or marks.old i false }
    ensures others { (j : ℕ) → j ≢ i → slice_index_or marks.new j false ≡ slice_index_or marks.old j false }
{
    let flag = has_flag(marks, i);
    if flag {
        marks[i as usize] = false;
    }
    flag
}

/// Sets a flag, where there is one.
pub fn set_flag(marks: &mut [bool], i: u32)
    ensures { (j : ℕ) → slice_index_or marks.old j false ≡ true → slice_index_or marks.new j false ≡ true }
{
    if (i as usize) < marks.len() {
        marks[i as usize] = true;
    }
}

/// Sets the flags of the parts that a visit of part `i` concerns.
pub fn set_flags(marks: &mut [bool], i: u32, visit: Visit)
    ensures { (j : ℕ) → slice_index_or marks.old j false ≡ true → slice_index_or marks.new j false ≡ true }
{
    if visit.before {
        set_flag(marks, i.saturating_sub(1));
    }
    if visit.after {
        set_flag(marks, i.saturating_add(1));
    }
    if visit.again {
        set_flag(marks, i);
    }
}
