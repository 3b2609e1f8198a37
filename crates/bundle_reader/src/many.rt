//! Texts of one kind, one after the other.

ghost use Rattle.std.specs.Prelude.{ℕ, ◌≤◌, List, IfOk, flat_map, length};
ghost use Rattle.std.specs.List.{AllByRecursion};
ghost use Rattle.bundle_reader.specs.Bytes.{HasByte};
ghost use Rattle.bundle_reader.specs.Fronts.{Anything, IsInFront, NoneInFront, ReadsFront};

use bundle_text::Listed;
use std::alloc::Global;
use tube_io::NoMemory;

/// Values of one kind, each with a text that shows where it ends.
pub(crate) trait Told: Drop {
    /// The text of a value.
    ghost text: { Self → List ℕ };

    /// Whether a bundle may say it.
    ghost IsTold: { Self → Type 0 };

    /// The value whose text stands in front, and what follows it.
    fn read(alloc: Global, bytes: &[u8]) -> Result<Option<(Self, &[u8])>, NoMemory>
        requires { length bytes.now ≤ 1000000000 }
        ensures { IfOk result (ReadsFront text IsTold Anything bytes.now) };

    /// No text is empty.
    ghost some: { (v : Self) → HasByte (text v) };
}

/// All values whose texts stand in front one after the other, and what follows them.
pub(crate) fn all<T: Told>(alloc: Global, bytes: &[u8]) -> Result<(Listed<T>, &[u8]), NoMemory>
    requires { length bytes.now ≤ 1000000000 }
    ensures { IfOk result (λ p. IsInFront (flat_map T.text) (AllByRecursion T.IsTold) (NoneInFront T.text T.IsTold Anything) bytes.now p.0 p.1.now) }
{
    let mut items = Vec::new(alloc);
    let mut rest = bytes;
    while let Some((item, others)) = T::read(alloc, rest)? {
        items.push(item)?;
        rest = others;
    }
    Ok((Listed::new(items), rest))
}
