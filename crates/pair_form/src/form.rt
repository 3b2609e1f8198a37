//! What a source of this form says.

ghost use Rattle.std.specs.Prelude.{◌≡◌};

use std::alloc::AllocError;
use std::marker::Model;

/// The words in the place of the names of a position's two signals. They may be any words: whether a log has such signals is not asked here.
#[derive(Debug, Drop)]
pub struct Place<'a> {
    pub x: &'a [u8],
    pub y: &'a [u8],
}

impl<'a> Model for Place<'a> {
    ghost use Rattle.std.specs.Prelude.{List, ℕ};

    ghost Value = { List ℕ × List ℕ };

    ghost view = { λ p. (p.x.now, p.y.now) };
}

/// A range that was measured between the robots. A contract sees the record of its numbers and words.
#[derive(Debug, Drop)]
pub struct Link<'a> {
    /// The tick of the first robot's clock at which it was measured.
    pub tick: i64,
    /// The least and the greatest distance, in millimetres.
    pub radii: (i64, i64),
    /// The position of the first robot.
    pub first: Place<'a>,
    /// The position of the second robot.
    pub second: Place<'a>,
}

impl<'a> Model for Link<'a> {
    ghost use Rattle.pair_form.specs.Forms.{LinkForm};

    ghost Value = { LinkForm };

    ghost view = { λ l. record { tick = l.tick; radii = l.radii; first = l.first; second = l.second } };
}

/// What a whole source says. A contract sees the record of its bytes, numbers and links.
#[derive(Debug, Drop)]
pub struct PairForm<'a> {
    /// The bytes of the first robot's log.
    pub first: &'a [u8],
    /// The bytes of the second robot's log.
    pub second: &'a [u8],
    /// The least and the greatest number of ticks that the second clock may be ahead of the first.
    pub offset: (i64, i64),
    /// The measured ranges, in order.
    pub links: Vec<Link<'a>>,
}

impl<'a> Model for PairForm<'a> {
    ghost use Rattle.pair_form.specs.Forms.{SourceForm};

    ghost Value = { SourceForm };

    ghost view = { λ p. record { first = p.first.now; second = p.second.now; offset = p.offset; links = p.links.items } };
}

/// Why a source is not read.
#[derive(Clone, Copy, Debug, PartialEq, Eq)]
pub enum PairFormFault {
    /// It has not this form.
    Form,
    /// Memory was refused.
    NoMemory,
}

impl From<AllocError> for PairFormFault {
    ghost use Rattle.pair_form.specs.declared.form.PairFormFault.TheVariants as fault;

    ghost from_gives = { λ _ e. e ≡ fault.NoMemory };

    fn from(_error: AllocError) -> PairFormFault {
        PairFormFault::NoMemory
    }
}
