//! A counter of steps that takes no bytes at run time.
//!
//! A call that bounds its work takes `steps: &mut Steps<L>` last, for any ledger `L`, ticks once for each of its steps, and says in a
//! clause by how much the count rose. Ticks have no code, so the bound costs nothing. The idea is that of time credits: a cost that
//! only the proof sees (Atkey, Amortised Resource Analysis with Separation Logic, 2010).
//!
//! A caller that counts nothing passes a blank ledger to a function of this form, as `counted::<Brand>(Blank::new(1))`:
//!
//! ```text
//! fn counted<L: Ledger>(blank: Blank)
//!     requires name { blank.name ≡ L.name }
//!     requires parts { blank.parts ≡ L.parts }
//!     requires some { 0 < L.parts }
//! {
//!     let mut steps = Steps::<L>::new(blank);
//!     ..
//! }
//! ```
//!
//! and picks the ledger in its `Invariants.antt`: `ghosts-counted a = record { name = a.blank.name; parts = a.blank.parts }`, with
//! `g a` in place of `a` where it has bounds, as a test that asserts has.
#![tactic(auto)]

ghost use Rattle.std.specs.Prelude.{◌≡◌, ℕ, ◌+◌, ◌<◌};

use std::marker::{Brand, Model};
use std::mem::size_of;
use std::sync::ledger::{Blank, Book, Ledger, Share};

/// How many steps were taken, a number. It takes no bytes, and only `tick` changes it.
#[derive(Drop)]
pub struct Steps<L: Ledger> {
    book: Book<L>,
    share: Share<L>,
}

const _: () = prove!(size_of::<Steps<Brand>>() == 0);

impl<L: Ledger> Model for Steps<L> {
    ghost use Rattle.std.specs.Prelude.{ℕ, ◌<◌};

    ghost Value = { ℕ };

    ghost view = { λ s. s.book.total };

    ghost invariant = { λ s. 0 < s.share.parts };
}

impl<L: Ledger> Steps<L> {
    /// A counter at 0, over a blank ledger that `L` stands for.
    pub fn new(blank: Blank) -> Steps<L>
        requires name { blank.name ≡ L.name }
        requires parts { blank.parts ≡ L.parts }
        requires some { 0 < L.parts }
        ensures { result ≡ 0 }
    {
        let (book, share) = blank.open::<L>();
        Steps { book, share }
    }

    /// Counts one step.
    pub fn tick(&mut self)
        ensures { self.new ≡ self.old + 1 }
    {
        self.book.add(&mut self.share, 1);
    }
}

#[cfg(test)]
mod tests {
    use super::*;

    // Ticks so many times.
    fn ticked<L: Ledger>(blank: Blank, times: u8)
        requires name { blank.name ≡ L.name }
        requires parts { blank.parts ≡ L.parts }
        requires some { 0 < L.parts }
    {
        let mut steps = Steps::<L>::new(blank);
        for _ in 0..times {
            steps.tick();
        }
    }

    #[test]
    fn takes_no_bytes(rt: HostRuntime) {
        ticked::<Brand>(Blank::new(1), 3);
        assert_eq!(rt; size_of::<Steps<Brand>>(), 0);
    }
}
