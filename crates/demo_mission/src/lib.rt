//! The demo mission: made from a seed, with the true course that it tells of.
#![tactic(auto)]

ghost use Rattle.std.specs.Prelude.{◌≡◌, IfOk};
ghost use Rattle.demo_course.specs.Course.{positions};
ghost use Rattle.demo_course.specs.Draws.{words_of};
ghost use Rattle.demo_spec.specs.Mission.{demo_cuts, demo_mission};
ghost use Rattle.log_text.specs.Texts.{log_text};

pub mod laws;
mod log;
mod record;

use crate::log::records;
use demo_course::{Axis, Course, LAST_TICK};
use log_text::print_log;
use mission_items::{Items, Mission};
use slice_gates::Grid;
use std::alloc::Global;
use tube_io::NoMemory;

// The width of a slice in ticks.
const WIDTH: u32 = 10;

/// A mission, and the positions of the true course that it tells of: one a tick from 0 to 2000, in millimetres.
#[derive(Drop)]
pub struct Positioned {
    /// The mission.
    pub mission: Mission,
    /// The first coordinates.
    pub x: Vec<i64>,
    /// The second coordinates.
    pub y: Vec<i64>,
}

/// The demo mission of a seed.
pub fn make_mission(alloc: Global, seed: u64) -> Result<Positioned, NoMemory>
    ensures mission { IfOk result (λ made. made.mission ≡ demo_mission seed) }
    ensures x { IfOk result (λ made. made.x.items ≡ positions (words_of seed 50) Axis.X) }
    ensures y { IfOk result (λ made. made.y.items ≡ positions (words_of seed 50) Axis.Y) }
{
    let course = Course::new(alloc, seed)?;
    let x = course.positions(alloc, Axis::X)?;
    let y = course.positions(alloc, Axis::Y)?;
    let mission = Mission {
        version: 1,
        ticks: LAST_TICK,
        width: WIDTH,
        cuts: grid(alloc)?,
        items: Items::new(records(alloc, &course, &x, &y)?),
    };
    Ok(Positioned { mission, x, y })
}

/// The log of a demo mission, and the positions of the true course that it tells of: one a tick from 0 to 2000, in millimetres.
#[derive(Drop)]
pub struct Demo {
    /// The log.
    pub log: Vec<u8>,
    /// The first coordinates.
    pub x: Vec<i64>,
    /// The second coordinates.
    pub y: Vec<i64>,
}

/// The log of the demo mission of a seed, which is the canonical text of its records, and the positions of the course.
pub fn make_demo(alloc: Global, seed: u64) -> Result<Demo, NoMemory>
    ensures log { IfOk result (λ demo. demo.log.items ≡ log_text (demo_mission seed)) }
    ensures x { IfOk result (λ demo. demo.x.items ≡ positions (words_of seed 50) Axis.X) }
    ensures y { IfOk result (λ demo. demo.y.items ≡ positions (words_of seed 50) Axis.Y) }
{
    let Positioned { mission, x, y } = make_mission(alloc, seed)?;
    let log = print_log(alloc, &mission)?;
    Ok(Demo { log, x, y })
}

// The boundaries of the slices.
fn grid(alloc: Global) -> Result<Grid, NoMemory>
    ensures { IfOk result (λ grid. grid ≡ demo_cuts) }
{
    match Grid::uniform(alloc, LAST_TICK, WIDTH) {
        Ok(grid) => Ok(grid),
        Err(_) => Err(NoMemory),
    }
}
