//! The program: it makes the real ends, which are standard input and standard output, calls the top call, and ends with the number of
//! its status.
#![tactic(auto)]

#[cfg(test)]
mod ends;
#[cfg(test)]
mod in_memory;

ghost use Rattle.std.specs.Prelude.{◌≡◌, ◌<◌};

use cli_words::Words;
use codac_run::{Ended, Status, run};
use std::alloc::Global;
use std::io::BufWriter;
use std::marker::Brand;
use std::process::ExitCode;
use std::rt::Env;
use std::sync::ledger::{Blank, Ledger};
use std::{env, io};
use step_count::Steps;
use tube_io::{NoMemory, RealSink, RealSource, Sink, Source};

// The words after the program's name. Where a word is no text, the one word `?`, which is refused.
fn words_of(rt: &(impl Env + AllocGlobal)) -> Result<Words, NoMemory> {
    let mut words = Words::new(rt.alloc());
    match env::args(rt) {
        Ok(args) => {
            for word in args.skip(1) {
                words.push(rt.alloc(), word.as_str())?;
            }
        }
        Err(error) => {
            if error.kind() == io::ErrorKind::OutOfMemory {
                return Err(NoMemory);
            }
            words.push(rt.alloc(), "?")?;
        }
    }
    Ok(words)
}

// A run with a new counter of steps.
fn run_counted<S: Source, K: Sink, L: Ledger>(
    alloc: Global,
    words: &Words,
    source: &mut S,
    sink: &mut K,
    blank: Blank,
) -> Ended
    requires name { blank.name ≡ L.name }
    requires parts { blank.parts ≡ L.parts }
    requires some { 0 < L.parts }
{
    let mut steps = Steps::<L>::new(blank);
    run(alloc, words, source, sink, &mut steps)
}

// A run from standard input to standard output. What is written waits in a buffer until that is full or the run flushes it.
fn run_on_standard_ends(rt: &(impl Input + Print + AllocGlobal), words: &Words) -> Status {
    let Ok(writer) = BufWriter::new(rt.alloc(), io::writer(rt)) else {
        return Status::NoMemory;
    };
    let mut source = RealSource::new(rt.reader());
    let mut sink = RealSink::new(writer);
    run_counted::<_, _, Brand>(rt.alloc(), words, &mut source, &mut sink, Blank::new(1)).status
}

fn main(rt: HostRuntime) -> ExitCode {
    let status = match words_of(&rt) {
        Ok(words) => run_on_standard_ends(&rt, &words),
        Err(NoMemory) => Status::NoMemory,
    };
    ExitCode::from(status as u8)
}
