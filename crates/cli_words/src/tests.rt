//! Command lines, read with ample memory.

use super::*;
use std::alloc::Global;
use tube_io::{NoMemory, SureSink};

const GREATEST: u64 = 1_000_000_000_000_000_000;

// What the words of a line, parted by single spaces, ask for.
fn asked(alloc: Global, line: &str) -> Result<Option<Asked>, NoMemory> {
    let mut words = Words::new(alloc);
    for word in line.split(' ') {
        words.push(alloc, word)?;
    }
    read_words(alloc, &words)
}

#[test]
fn taken_lines(rt: HostRuntime) -> Result<(), NoMemory> {
    for (line, mode, budget, order, brief, seed, step) in [
        (
            "solve",
            Mode::Solve,
            GREATEST,
            OrderWord::Fifo,
            false,
            1,
            1000,
        ),
        (
            "loops --brief",
            Mode::Loops,
            GREATEST,
            OrderWord::Fifo,
            true,
            1,
            1000,
        ),
        (
            "demo --seed=+7",
            Mode::Demo,
            GREATEST,
            OrderWord::Fifo,
            false,
            7,
            1000,
        ),
        (
            "--order rank --budget 0 -- solve",
            Mode::Solve,
            0,
            OrderWord::Rank,
            false,
            1,
            1000,
        ),
        (
            "--brief solve --order=lifo --budget +5",
            Mode::Solve,
            5,
            OrderWord::Lifo,
            true,
            1,
            1000,
        ),
        (
            "area --step 25",
            Mode::Area,
            GREATEST,
            OrderWord::Fifo,
            false,
            1,
            25,
        ),
    ] {
        let want = Asked {
            mode,
            budget,
            order,
            brief,
            seed,
            step,
        };
        assert_eq!(rt; asked(rt.alloc(), line)?, Some(want), "{line}");
    }
    Ok(())
}

#[test]
fn refused_lines(rt: HostRuntime) -> Result<(), NoMemory> {
    assert_eq!(rt; read_words(rt.alloc(), &Words::new(rt.alloc()))?, None);
    for line in [
        "",
        "?",
        "solve fast",
        "Solve",
        "solve --order random",
        "solve --budget 1000000000000000001",
        "solve --budget 1e3",
        "area --step 0",
        "area --step 1000000001",
        "demo --seed -1",
        "demo --seed 1 --seed 1",
        "solve --brief --brief",
        "solve --bri",
        "solve --order",
        "--help",
        "-h",
        "--version",
    ] {
        assert_eq!(rt; asked(rt.alloc(), line)?, None, "{line}");
    }
    Ok(())
}

#[test]
fn line_of_usage(rt: HostRuntime) {
    let mut sink = SureSink::<120>::new();
    assert_eq!(rt; write_usage(&mut sink), Ok(()));
    let want =
        b"usage: codac_cli solve|loops|demo|area [--budget N] [--order fifo|lifo|rank] [--brief] [--seed N] [--step N]\n";
    assert_eq!(rt; sink.bytes(), want.as_slice());
}
