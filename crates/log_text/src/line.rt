//! A line.

ghost use Rattle.std.specs.Prelude.{◌≡◌, ◌∷◌, ◌++◌, map, OnOk};
ghost use Rattle.csv_rows.specs.Lines.{line};
ghost use Rattle.log_spelling.specs.Kinds.{word_of};
ghost use Rattle.log_text.specs.Written.{field_text};

use crate::field::{Field, append, append_field};
use log_spelling::Kind;
use tube_io::NoMemory;

/// Appends the line of a record of a kind, with these fields after the first.
#[tactic(auto, using(crate::proofs::Taking::others_last))]
pub(crate) fn append_line(out: &mut Vec<u8>, kind: Kind, fields: &[Field]) -> Result<(), NoMemory>
    ensures { OnOk result (out.new.items ≡ out.old.items ++ line (word_of kind ∷ map field_text fields.now)) }
{
    append(out, kind.word())?;
    for field in fields {
        append(out, b",")?;
        append_field(out, *field)?;
    }
    append(out, b"\n")
}
