//! Settles the mission on standard input and asks one of its contractors again and again whether it still narrows the box, which computes all its
//! formulas as a firing of all its parts does, so that `bench/firings` and `bench/expressions` can time it. The words are how many contractors
//! stand behind the one that is asked, and how often it is asked. The program prints how often it said yes: never, since the mission is settled.
#![tactic(auto)]

ghost use Rattle.std.specs.Prelude.{◌≡◌, ◌<◌};

use cli_words::Words;
use codac_run::{Ended, run};
use ctc_core::Contractor;
use ctc_network::CtcId;
use std::env;
use std::marker::Brand;
use std::process::ExitCode;
use std::rt::Env;
use std::sync::ledger::{Blank, Ledger};
use step_count::Steps;
use tube_io::{RealSource, SureSink};

// The two numbers that the words are.
fn asked(rt: &(impl Env + AllocGlobal)) -> Option<(u32, u32)> {
    let mut words = env::args(rt).ok()?.skip(1);
    let behind = words.next()?.as_str().parse().ok()?;
    let turns = words.next()?.as_str().parse().ok()?;
    Some((behind, turns))
}

// Settles the mission, asks the contractor so many times, and counts how often it would narrow something; none where the mission is not
// settled or has no such contractor.
fn asked_again<L: Ledger>(
    rt: &(impl Input + AllocGlobal),
    blank: Blank,
    behind: u32,
    turns: u32,
) -> Option<u32>
    requires name { blank.name ≡ L.name }
    requires parts { blank.parts ≡ L.parts }
    requires some { 0 < L.parts }
{
    let mut words = Words::new(rt.alloc());
    words.push(rt.alloc(), "solve").ok()?;
    words.push(rt.alloc(), "--brief").ok()?;
    let mut source = RealSource::new(rt.reader());
    let mut sink = SureSink::<4096>::new();
    let mut steps = Steps::<L>::new(blank);
    let Ended { net, .. } = run(rt.alloc(), &words, &mut source, &mut sink, &mut steps);
    let net = net?;
    let number = CtcId(net.numbers().checked_sub(behind)?.checked_sub(1)?);
    if !net.has(number) {
        return None;
    }
    net.known();
    let contractor = net.contractor(number);
    let mut narrowed: u32 = 0;
    for _ in 0..turns {
        if contractor.still(net.store(), &mut steps) {
            narrowed = narrowed.saturating_add(1);
        }
    }
    Some(narrowed)
}

fn main(rt: HostRuntime) -> ExitCode {
    let Some((behind, turns)) = asked(&rt) else {
        return ExitCode::FAILURE;
    };
    let Some(narrowed) = asked_again::<Brand>(&rt, Blank::new(1), behind, turns) else {
        return ExitCode::FAILURE;
    };
    match println!(rt; "{narrowed}") {
        Ok(()) => ExitCode::SUCCESS,
        Err(_) => ExitCode::FAILURE,
    }
}
