//! The lines of the clock and of notes.

ghost use Rattle.std.specs.Prelude.{◌≡◌, ◌++◌, ◌∷◌, [], codes, OnOk};
ghost use Rattle.csv_rows.specs.Lines.{line};
ghost use Rattle.log_text.specs.Records.{cut_record, mission_record};

use crate::field::{Field, append};
use crate::line::append_line;
use log_spelling::Kind;
use mission_items::Mission;
use tube_io::NoMemory;

/// `mission,V,T,w`
pub(crate) fn append_mission(out: &mut Vec<u8>, mission: &Mission) -> Result<(), NoMemory>
    ensures { OnOk result (out.new.items ≡ out.old.items ++ line (mission_record mission.now.version mission.now.ticks mission.now.width)) }
{
    let fields = [
        Field::Number(i64::from(mission.version)),
        Field::Number(i64::from(mission.ticks)),
        Field::Number(i64::from(mission.width)),
    ];
    append_line(out, Kind::Mission, &fields)
}

/// `#`
pub(crate) fn append_note(out: &mut Vec<u8>) -> Result<(), NoMemory>
    ensures { OnOk result (out.new.items ≡ out.old.items ++ line (codes "#" ∷ [])) }
{
    append(out, b"#\n")
}

/// `cut,t`
pub(crate) fn append_cut(out: &mut Vec<u8>, tick: u32) -> Result<(), NoMemory>
    ensures { OnOk result (out.new.items ≡ out.old.items ++ line (cut_record tick)) }
{
    append_line(out, Kind::Cut, &[Field::Number(i64::from(tick))])
}
