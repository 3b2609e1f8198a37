//! A source of two logs and the ranges between their robots, read as far as its logs may be joined.

ghost use Rattle.std.specs.Prelude.{◌≤◌, IfOk, length};
ghost use Rattle.tube_spec.specs.Limits.{most_bytes};
ghost use Rattle.mission_items.specs.Valid.{IsMission};
ghost use Rattle.pair_causes.specs.Reading.{IsFormRead, IsLogRead, IsPairRead};

use crate::cause::{PairCause, PairFault};
use crate::judging::judge;
use crate::link::Linked;
use mission_items::Mission;
use mission_log::{LogFault, read_log};
use pair_form::{PairForm, PairFormFault, read_pair};
use std::alloc::Global;

/// Two missions that no cause from Form to LongName refuses, and what the ranges between their robots say.
#[derive(Drop)]
pub struct Pair<'a> {
    /// The mission of the first robot's log.
    pub first: Mission,
    /// The mission of the second robot's log.
    pub second: Mission,
    /// The form that both logs stand in.
    pub form: PairForm<'a>,
    /// What each link says, in order.
    pub links: Vec<Linked>,
}

// What the bytes say.
fn form_of(alloc: Global, bytes: &[u8]) -> Result<PairForm<'_>, PairFault>
    ensures { IsFormRead bytes.now result }
{
    match read_pair(alloc, bytes) {
        Ok(form) => Ok(form),
        Err(PairFormFault::Form) => Err(PairFault::Bad {
            at: 0,
            cause: PairCause::Form,
        }),
        Err(PairFormFault::NoMemory) => Err(PairFault::NoMemory),
    }
}

// The mission of a log, which is refused by this cause.
fn mission_of(alloc: Global, log: &[u8], cause: PairCause) -> Result<Mission, PairFault>
    ensures log { IsLogRead log.now cause result }
    ensures valid { IfOk result IsMission }
{
    match read_log(alloc, log) {
        Ok(mission) => Ok(mission),
        Err(LogFault::Bad { number, .. }) => Err(PairFault::Bad { at: number, cause }),
        Err(LogFault::NoMemory) => Err(PairFault::NoMemory),
    }
}

/// Reads a source of two logs and the ranges between their robots. Where it is refused, the lowest cause from Form to LongName is told, and
/// where it holds. How long a source may be is asked by the caller.
pub fn read_both<'a>(alloc: Global, bytes: &'a [u8]) -> Result<Pair<'a>, PairFault>
    requires { length bytes.now ≤ most_bytes }
    ensures read { IsPairRead bytes.entry.now result }
    ensures first { IfOk result (λ pair. IsMission pair.first) }
    ensures second { IfOk result (λ pair. IsMission pair.second) }
{
    let form = form_of(alloc, bytes)?;
    let first = mission_of(alloc, form.first, PairCause::FirstLog)?;
    let second = mission_of(alloc, form.second, PairCause::SecondLog)?;
    let links = judge(alloc, &first, &second, &form)?;
    Ok(Pair {
        first,
        second,
        form,
        links,
    })
}
