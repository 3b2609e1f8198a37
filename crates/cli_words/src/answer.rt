//! What the words ask for.

ghost use Rattle.std.specs.Prelude.{◌≡◌, ◌≤◌, IfOk, IfSome, map};
ghost use Rattle.clap.specs.Words.{found_of, rows_of};
ghost use Rattle.cli_words.specs.Asked.{HasStep, asked_by, asked_of, greatest_step, mode_of, number_in, order_of, step_of, text_at};

use crate::command::command;
use crate::words::Words;
use clap::ArgMatches;
use clap::error::ErrorKind;
use std::alloc::Global;
use std::convert::AsStr;
use tube_io::NoMemory;

/// What is to be done.
#[derive(Clone, Copy, Debug, PartialEq, Eq)]
pub enum Mode {
    /// To narrow the cells of a log, and print each section.
    Solve,
    /// The same, and then to print what is found of each revisit.
    Loops,
    /// The same on a log that is made.
    Demo,
    /// To narrow the cells of a log, print each section, and then chart the area that the sensor of each revisit has seen.
    Area,
}

/// The word after `--order`: in which order the contractors fire.
#[derive(Clone, Copy, Debug, PartialEq, Eq)]
pub enum OrderWord {
    Fifo,
    Lifo,
    Rank,
}

/// What the words ask for.
#[derive(Clone, Copy, Debug, PartialEq, Eq)]
pub struct Asked {
    /// The word that stands alone.
    pub mode: Mode,
    /// How far the measure of a section may fall, 0 to 1,000,000,000,000,000,000; that number where it is not given.
    pub budget: u64,
    /// `Fifo` where it is not given.
    pub order: OrderWord,
    /// Whether `--brief` was given.
    pub brief: bool,
    /// The start of the demo's random words; 1 where it is not given.
    pub seed: u64,
    /// How far the points of a chart lie apart, in millimetres, 1 to 1,000,000,000; 1,000 where it is not given.
    pub step: u64,
}

/// The greatest step of a chart, in millimetres.
const GREATEST_STEP: u64 = 1_000_000_000;

fn mode_of(text: &str) -> Option<Mode>
    ensures { result ≡ mode_of text.now }
{
    if text == "solve" {
        Some(Mode::Solve)
    } else if text == "loops" {
        Some(Mode::Loops)
    } else if text == "demo" {
        Some(Mode::Demo)
    } else if text == "area" {
        Some(Mode::Area)
    } else {
        None
    }
}

fn order_of(text: &str) -> Option<OrderWord>
    ensures { result ≡ order_of text.now }
{
    if text == "fifo" {
        Some(OrderWord::Fifo)
    } else if text == "lifo" {
        Some(OrderWord::Lifo)
    } else if text == "rank" {
        Some(OrderWord::Rank)
    } else {
        None
    }
}

fn number_in(text: &str) -> u64
    ensures { result ≡ number_in text.now }
{
    match text.parse::<u64>() {
        Ok(n) => n,
        Err(_) => 0,
    }
}

fn step_of(text: &str) -> Option<u64>
    ensures value { result ≡ step_of text.now }
    ensures least { IfSome result (λ step. 1 ≤ step) }
    ensures most { IfSome result (λ step. step ≤ greatest_step) }
{
    let step = number_in(text);
    if 1 <= step && step <= GREATEST_STEP {
        Some(step)
    } else {
        None
    }
}

// The value of an argument that always has one.
fn text_at<'a>(matches: &ArgMatches<'a>, id: &str) -> &'a str
    ensures { result.now ≡ text_at id.now (rows_of (found_of matches.now)) }
{
    match matches.get_str(id) {
        Some(text) => text,
        None => "",
    }
}

fn asked_by(matches: &ArgMatches) -> Option<Asked>
    ensures asked { result ≡ asked_by (rows_of (found_of matches.now)) }
    ensures step { IfSome result HasStep }
{
    let Some(mode) = mode_of(text_at(matches, "mode")) else {
        return None;
    };
    let Some(order) = order_of(text_at(matches, "order")) else {
        return None;
    };
    let Some(step) = step_of(text_at(matches, "step")) else {
        return None;
    };
    let budget = number_in(text_at(matches, "budget"));
    let brief = text_at(matches, "brief") == "true";
    let seed = number_in(text_at(matches, "seed"));
    Some(Asked {
        mode,
        budget,
        order,
        brief,
        seed,
        step,
    })
}

fn read_texts<S: AsStr>(alloc: Global, texts: &[S]) -> Result<Option<Asked>, NoMemory>
    ensures asked { IfOk result (λ asked. asked ≡ asked_of (map S.text texts.now)) }
    ensures step { IfOk result (λ asked. IfSome asked HasStep) }
{
    let command = command(alloc)?;
    match command.try_get_matches_from(texts) {
        Ok(matches) => Ok(asked_by(&matches)),
        Err(error) => {
            let kind = error.kind();
            match kind {
                ErrorKind::OutOfMemory => Err(NoMemory),
                _ => Ok(None),
            }
        }
    }
}

/// Reads the words after the program's name. None exactly where the command refuses them.
pub fn read_words(alloc: Global, words: &Words) -> Result<Option<Asked>, NoMemory>
    ensures asked { IfOk result (λ asked. asked ≡ asked_of words.now) }
    ensures step { IfOk result (λ asked. IfSome asked HasStep) }
{
    read_texts(alloc, words.as_slice())
}
