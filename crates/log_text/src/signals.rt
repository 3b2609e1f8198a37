//! The lines that speak of signals.

ghost use Rattle.std.specs.Prelude.{◌≡◌, ◌++◌, OnOk};
ghost use Rattle.csv_rows.specs.Lines.{line};
ghost use Rattle.log_text.specs.Records.{at_record, bound_record, delay_record, deriv_record, eval_record};

use crate::field::Field;
use crate::line::append_line;
use crate::names::Names;
use int_interval::Interval;
use log_spelling::Kind;
use tube_io::NoMemory;
use tube_store::{SignalId, VarId};

/// `deriv,x,v`
pub(crate) fn append_deriv(
    out: &mut Vec<u8>,
    names: &Names,
    x: SignalId,
    rate: SignalId,
) -> Result<(), NoMemory>
    ensures { OnOk result (out.new.items ≡ out.old.items ++ line (deriv_record names.now x rate)) }
{
    let fields = [names.signal(x), names.signal(rate)];
    append_line(out, Kind::Deriv, &fields)
}

/// `bound,x,t1,t2,lo,hi`
pub(crate) fn append_bound(
    out: &mut Vec<u8>,
    names: &Names,
    x: SignalId,
    first: u32,
    last: u32,
    range: Interval,
) -> Result<(), NoMemory>
    ensures { OnOk result (out.new.items ≡ out.old.items ++ line (bound_record names.now x first last range)) }
{
    let fields = [
        names.signal(x),
        Field::Number(i64::from(first)),
        Field::Number(i64::from(last)),
        Field::Number(range.lo()),
        Field::Number(range.hi()),
    ];
    append_line(out, Kind::Bound, &fields)
}

/// `at,x,t,lo,hi`
pub(crate) fn append_at(
    out: &mut Vec<u8>,
    names: &Names,
    x: SignalId,
    tick: u32,
    range: Interval,
) -> Result<(), NoMemory>
    ensures { OnOk result (out.new.items ≡ out.old.items ++ line (at_record names.now x tick range)) }
{
    let fields = [
        names.signal(x),
        Field::Number(i64::from(tick)),
        Field::Number(range.lo()),
        Field::Number(range.hi()),
    ];
    append_line(out, Kind::At, &fields)
}

/// `eval,x,t,z`
pub(crate) fn append_eval(
    out: &mut Vec<u8>,
    names: &Names,
    x: SignalId,
    t: VarId,
    z: VarId,
) -> Result<(), NoMemory>
    ensures { OnOk result (out.new.items ≡ out.old.items ++ line (eval_record names.now x t z)) }
{
    let fields = [names.signal(x), names.variable(t), names.variable(z)];
    append_line(out, Kind::Eval, &fields)
}

/// `delay,x,y,tau`
pub(crate) fn append_delay(
    out: &mut Vec<u8>,
    names: &Names,
    x: SignalId,
    y: SignalId,
    tau: VarId,
) -> Result<(), NoMemory>
    ensures { OnOk result (out.new.items ≡ out.old.items ++ line (delay_record names.now x y tau)) }
{
    let fields = [names.signal(x), names.signal(y), names.variable(tau)];
    append_line(out, Kind::Delay, &fields)
}
