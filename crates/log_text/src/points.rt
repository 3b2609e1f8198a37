//! The lines that speak of points.

ghost use Rattle.std.specs.Prelude.{◌≡◌, ◌++◌, OnOk};
ghost use Rattle.csv_rows.specs.Lines.{line};
ghost use Rattle.log_text.specs.Records.{constell_record, ping_record, range3_record, range_record};

use crate::field::Field;
use crate::line::append_line;
use crate::names::Names;
use log_spelling::Kind;
use tube_io::NoMemory;
use tube_store::{SignalId, VarId};

/// `range,r1,r2,px,py,bx,by`
pub(crate) fn append_range(
    out: &mut Vec<u8>,
    names: &Names,
    near: i64,
    far: i64,
    p: [VarId; 2],
    b: [VarId; 2],
) -> Result<(), NoMemory>
    ensures { OnOk result (out.new.items ≡ out.old.items ++ line (range_record names.now near far p b)) }
{
    let [px, py] = p;
    let [bx, by] = b;
    let fields = [
        Field::Number(near),
        Field::Number(far),
        names.variable(px),
        names.variable(py),
        names.variable(bx),
        names.variable(by),
    ];
    append_line(out, Kind::Range, &fields)
}

/// `range3,r1,r2,px,py,pz,bx,by,bz`
pub(crate) fn append_range3(
    out: &mut Vec<u8>,
    names: &Names,
    near: i64,
    far: i64,
    p: [VarId; 3],
    b: [VarId; 3],
) -> Result<(), NoMemory>
    ensures { OnOk result (out.new.items ≡ out.old.items ++ line (range3_record names.now near far p b)) }
{
    let [px, py, pz] = p;
    let [bx, by, bz] = b;
    let fields = [
        Field::Number(near),
        Field::Number(far),
        names.variable(px),
        names.variable(py),
        names.variable(pz),
        names.variable(bx),
        names.variable(by),
        names.variable(bz),
    ];
    append_line(out, Kind::Range3, &fields)
}

/// `constell,px,py`
pub(crate) fn append_constell(
    out: &mut Vec<u8>,
    names: &Names,
    p: [VarId; 2],
) -> Result<(), NoMemory>
    ensures { OnOk result (out.new.items ≡ out.old.items ++ line (constell_record names.now p)) }
{
    let [px, py] = p;
    let fields = [names.variable(px), names.variable(py)];
    append_line(out, Kind::Constell, &fields)
}

/// What a ping says.
#[derive(Clone, Copy)]
pub(crate) struct Ping {
    pub(crate) x: SignalId,
    pub(crate) y: SignalId,
    pub(crate) first: u32,
    pub(crate) last: u32,
    pub(crate) beacon: Option<u32>,
    pub(crate) near: i64,
    pub(crate) far: i64,
}

/// `ping,x,y,t1,t2,beacon,r1,r2`
pub(crate) fn append_ping(out: &mut Vec<u8>, names: &Names, p: Ping) -> Result<(), NoMemory>
    ensures { OnOk result (out.new.items ≡ out.old.items ++ line (ping_record names.now p.x p.y p.first p.last p.beacon p.near p.far)) }
{
    let fields = [
        names.signal(p.x),
        names.signal(p.y),
        Field::Number(i64::from(p.first)),
        Field::Number(i64::from(p.last)),
        names.beacon(p.beacon),
        Field::Number(p.near),
        Field::Number(p.far),
    ];
    append_line(out, Kind::Ping, &fields)
}
