//! The lines that declare signals, variables and beacons.

ghost use Rattle.std.specs.Prelude.{◌≡◌, ◌++◌, OnOk};
ghost use Rattle.csv_rows.specs.Lines.{line};
ghost use Rattle.log_text.specs.Records.{beacon_record, signal_record, variable_record};

use crate::field::Field;
use crate::line::append_line;
use int_interval::Interval;
use log_spelling::Kind;
use tube_io::NoMemory;

/// `signal,name,lo,hi`
pub(crate) fn append_signal(out: &mut Vec<u8>, name: &[u8], range: Interval) -> Result<(), NoMemory>
    ensures { OnOk result (out.new.items ≡ out.old.items ++ line (signal_record name.now range)) }
{
    let fields = [
        Field::Text(name),
        Field::Number(range.lo()),
        Field::Number(range.hi()),
    ];
    append_line(out, Kind::Signal, &fields)
}

/// `var,name,lo,hi`
pub(crate) fn append_variable(
    out: &mut Vec<u8>,
    name: &[u8],
    range: Interval,
) -> Result<(), NoMemory>
    ensures { OnOk result (out.new.items ≡ out.old.items ++ line (variable_record name.now range)) }
{
    let fields = [
        Field::Text(name),
        Field::Number(range.lo()),
        Field::Number(range.hi()),
    ];
    append_line(out, Kind::Variable, &fields)
}

/// `beacon,name,x1,x2,y1,y2`
pub(crate) fn append_beacon(
    out: &mut Vec<u8>,
    name: &[u8],
    x: Interval,
    y: Interval,
) -> Result<(), NoMemory>
    ensures { OnOk result (out.new.items ≡ out.old.items ++ line (beacon_record name.now x y)) }
{
    let fields = [
        Field::Text(name),
        Field::Number(x.lo()),
        Field::Number(x.hi()),
        Field::Number(y.lo()),
        Field::Number(y.hi()),
    ];
    append_line(out, Kind::Beacon, &fields)
}
