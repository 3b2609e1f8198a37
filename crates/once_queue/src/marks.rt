//! A mark at each number, and how many are set.

ghost use Rattle.std.specs.Prelude.{◌≡◌, ◌+◌, ◌<◌, ◌≤◌, ◌++◌, [], ◌∷◌, ℕ, true, false, Some, OnOk, OnErr, length, count_by, slice_get, slice_set};

use std::alloc::{AllocError, Global};
use std::marker::Model;

/// A mark at each of the numbers 0, 1, 2 and so on, and how many are set.
#[derive(Drop)]
pub struct Marks {
    marks: Vec<bool>,
    count: u32,
}

impl Model for Marks {
    ghost use Rattle.std.specs.Prelude.{◌≡◌, ◌≤◌, List, Bool, length, count_by};

    ghost Value = { List Bool };

    ghost view = { λ m. m.marks.items };

    ghost invariant = { λ m. (m.count ≡ count_by (λ mark. mark) m.marks.items) × (length m.marks.items ≤ 4294967295) };
}

impl Marks {
    /// No marks.
    pub fn new(alloc: Global) -> Marks
        ensures { result ≡ [] }
    {
        Marks {
            marks: Vec::new(alloc),
            count: 0,
        }
    }

    /// How many marks there are.
    pub fn len(&self) -> u32
        ensures { result ≡ length self.now }
    {
        self.marks.len() as u32
    }

    /// How many are set.
    pub fn count(&self) -> u32
        ensures { result ≡ count_by (λ mark. mark) self.now }
    {
        self.count
    }

    /// Whether the mark at a number is set.
    pub fn is_set(&self, number: u32) -> bool
        requires { number < length self.now }
        ensures { slice_get self.now number ≡ Some result }
    {
        self.marks[number as usize]
    }

    /// One mark more, which is set.
    pub fn push(&mut self) -> Result<(), AllocError>
        requires { length self.old < u32.MAX }
        ensures ok { OnOk result (self.new ≡ self.old ++ true ∷ []) }
        ensures err { OnErr result (self.new ≡ self.old) }
    {
        self.marks.push(true)?;
        self.count += 1;
        Ok(())
    }

    /// Sets the mark at a number.
    pub fn set(&mut self, number: u32)
        requires { number < length self.old }
        ensures { self.new ≡ slice_set self.old number true }
    {
        if !self.marks[number as usize] {
            self.marks[number as usize] = true;
            self.count += 1;
        }
    }

    /// Clears the mark at a number, and says whether it was set.
    pub fn clear(&mut self, number: u32) -> bool
        requires { number < length self.old }
        ensures was { slice_get self.old number ≡ Some result }
        ensures new { self.new ≡ slice_set self.old number false }
    {
        let was = self.marks[number as usize];
        if was {
            self.marks[number as usize] = false;
            self.count -= 1;
        }
        was
    }
}
