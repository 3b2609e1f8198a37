//! References: the names of variables, and of the coordinates of beacons.

ghost use Rattle.std.specs.Prelude.{◌≡◌};
ghost use Rattle.log_spelling.specs.References.{bare_name, is_reference, part_of, part_text};

use crate::name::is_name;

/// Which part of what bears the name a reference means.
#[derive(Clone, Copy, Debug, PartialEq, Eq)]
pub enum Part {
    /// All of it: the reference is the name alone.
    Whole,
    /// The first coordinate of a beacon: the name, and then `.x`.
    X,
    /// The second coordinate of a beacon: the name, and then `.y`.
    Y,
}

impl Part {
    /// What stands after the name in a reference: nothing, `.x` or `.y`.
    pub fn text(self) -> &'static [u8]
        ensures { result.now ≡ part_text self }
    {
        match self {
            Part::Whole => b"",
            Part::X => b".x",
            Part::Y => b".y",
        }
    }
}

/// The part that a text means: a coordinate where it ends with `.x` or `.y`, and else the whole.
#[tactic(auto, unfolding(crate::specs::References::part_of))]
pub fn part_of(text: &[u8]) -> Part
    ensures { result ≡ part_of text.now }
{
    if text.ends_with(b".x") {
        return Part::X;
    }
    if text.ends_with(b".y") {
        return Part::Y;
    }
    Part::Whole
}

/// The text without the `.x` or `.y` at its end.
#[tactic(auto, unfolding(crate::specs::References::bare_name))]
pub fn bare_name(text: &[u8]) -> &[u8]
    ensures { result.now ≡ bare_name text.now }
{
    &text[..text.len() - part_of(text).text().len()]
}

/// Whether a trimmed field is spelled as a reference: a name, or a name and then `.x` or `.y`.
pub fn is_reference(text: &[u8]) -> bool
    ensures { result ≡ is_reference text.now }
{
    is_name(bare_name(text))
}
