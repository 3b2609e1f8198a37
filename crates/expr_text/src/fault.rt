//! Why a text is not read.

ghost use Rattle.std.specs.Prelude.{◌≡◌};
ghost use Rattle.expr_text.specs.declared.fault.ExprFault.TheVariants.{NoMemory as Memory};

use tube_io::NoMemory;

/// Why a text is not read as a relation.
#[derive(Clone, Copy, Debug, PartialEq, Eq)]
pub enum ExprFault {
    /// The text is no relation. The offset of the first byte that begins no token, of a number or name
    /// that is too long, or of the first token that no relation goes on with, whichever is first; or
    /// the length of the text where it ends too early.
    Text(u32),
    /// The text is a relation, of more than 256 nodes, of a depth above 32, or with more than 32
    /// brackets open at one time.
    Deep,
    /// Memory was refused.
    NoMemory,
}

impl From<NoMemory> for ExprFault {
    ghost from_gives = { λ _ e. e ≡ Memory };

    fn from(_error: NoMemory) -> ExprFault {
        ExprFault::NoMemory
    }
}
