//! The lines of formulas, questions and sections.

ghost use Rattle.std.specs.Prelude.{◌≡◌, ◌++◌, ◌∷◌, [], codes, OnOk};
ghost use Rattle.csv_rows.specs.Lines.{line};
ghost use Rattle.expr_text.specs.Canonical.{relation_text};
ghost use Rattle.log_spelling.specs.Kinds.{word_of};
ghost use Rattle.log_text.specs.Records.{revisit_record};
ghost use Rattle.log_text.specs.Written.{quoted};

use crate::field::Field;
use crate::line::append_line;
use crate::names::Names;
use formula_text::{Formula, print_formula};
use log_spelling::Kind;
use std::alloc::Global;
use tube_io::NoMemory;
use tube_names::Query;

/// `expr,"text"` or `exprv,"text"`
pub(crate) fn append_formula(
    out: &mut Vec<u8>,
    alloc: Global,
    kind: Kind,
    formula: &Formula,
) -> Result<(), NoMemory>
    ensures { OnOk result (out.new.items ≡ out.old.items ++ line (word_of kind ∷ quoted (relation_text formula.now) ∷ [])) }
{
    let text = print_formula(alloc, formula)?;
    append_line(out, kind, &[Field::Quoted(text.as_slice())])
}

/// `revisit,x,y,R,G`
pub(crate) fn append_revisit(out: &mut Vec<u8>, names: &Names, q: Query) -> Result<(), NoMemory>
    ensures { OnOk result (out.new.items ≡ out.old.items ++ line (revisit_record names.now q)) }
{
    let fields = [
        names.signal(q.x),
        names.signal(q.y),
        Field::Number(q.radius),
        Field::Number(i64::from(q.gap)),
    ];
    append_line(out, Kind::Revisit, &fields)
}

/// `settle`
pub(crate) fn append_settle(out: &mut Vec<u8>) -> Result<(), NoMemory>
    ensures { OnOk result (out.new.items ≡ out.old.items ++ line (codes "settle" ∷ [])) }
{
    append_line(out, Kind::Settle, &[])
}
