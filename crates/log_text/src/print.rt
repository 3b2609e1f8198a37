//! The text of a mission.

ghost use Rattle.std.specs.Prelude.{◌≡◌, ◌++◌, IfOk, OnOk};
ghost use Rattle.log_text.specs.Texts.{item_line, log_text};

use crate::clock::{append_cut, append_mission, append_note};
use crate::declaring::{append_beacon, append_signal, append_variable};
use crate::names::Names;
use crate::points::{Ping, append_constell, append_ping, append_range, append_range3};
use crate::questions::{append_formula, append_revisit, append_settle};
use crate::signals::{append_at, append_bound, append_delay, append_deriv, append_eval};
use log_spelling::Kind;
use mission_items::{Item, Mission};
use std::alloc::Global;
use tube_io::NoMemory;

/// The canonical text of a mission: a line for each record, ended by byte 10, without spaces.
///
/// A signal, a variable or a beacon that no record of the mission names is printed as no bytes; there is none in a mission that was
/// read.
pub fn print_log(alloc: Global, mission: &Mission) -> Result<Vec<u8>, NoMemory>
    ensures { IfOk result (λ text. text.items ≡ log_text mission.now) }
{
    let items = mission.items.as_slice();
    let names = Names::of(alloc, items)?;
    let mut text = Vec::new(alloc);
    for item in items {
        append_item(&mut text, alloc, &names, mission, item)?;
    }
    Ok(text)
}

// The line of a record.
fn append_item(
    out: &mut Vec<u8>,
    alloc: Global,
    names: &Names,
    mission: &Mission,
    item: &Item,
) -> Result<(), NoMemory>
    ensures { OnOk result (out.new.items ≡ out.old.items ++ item_line names.now mission.now item.now) }
{
    match item {
        Item::Head => append_mission(out, mission),
        Item::Note => append_note(out),
        Item::Cut { tick } => append_cut(out, *tick),
        Item::Signal { name, range } => append_signal(out, name.bytes(), *range),
        Item::Variable { name, range } => append_variable(out, name.bytes(), *range),
        Item::Beacon { name, x, y } => append_beacon(out, name.bytes(), *x, *y),
        Item::Deriv { x, rate } => append_deriv(out, names, *x, *rate),
        Item::Bound {
            x,
            first,
            last,
            range,
        } => append_bound(out, names, *x, *first, *last, *range),
        Item::At { x, tick, range } => append_at(out, names, *x, *tick, *range),
        Item::Eval { x, t, z } => append_eval(out, names, *x, *t, *z),
        Item::Delay { x, y, tau } => append_delay(out, names, *x, *y, *tau),
        Item::Dist2 { near, far, p, b } => append_range(out, names, *near, *far, *p, *b),
        Item::Dist3 { near, far, p, b } => append_range3(out, names, *near, *far, *p, *b),
        Item::Constell { p } => append_constell(out, names, *p),
        Item::Ping {
            x,
            y,
            first,
            last,
            beacon,
            near,
            far,
        } => {
            let ping = Ping {
                x: *x,
                y: *y,
                first: *first,
                last: *last,
                beacon: *beacon,
                near: *near,
                far: *far,
            };
            append_ping(out, names, ping)
        }
        Item::Each { formula, .. } => append_formula(out, alloc, Kind::Expr, formula),
        Item::Single { formula, .. } => append_formula(out, alloc, Kind::Exprv, formula),
        Item::Revisit { q } => append_revisit(out, names, *q),
        Item::Settle => append_settle(out),
    }
}
