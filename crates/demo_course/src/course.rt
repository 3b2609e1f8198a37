//! The course that a seed draws.

ghost use Rattle.std.specs.Prelude.{◌≡◌, ◌<◌, ◌≤◌, ◌*◌, ◌+◌, ◌+ℤ◌, ◌*ℤ◌, ℕ, List, IfOk, length, slice_index};
ghost use Rattle.tube_spec.specs.Span.{Holds, natural};
ghost use Rattle.demo_course.specs.Draws.{draw, offset_of, place_of, rate_of, words_of};
ghost use Rattle.demo_course.specs.Course.{difference, distance_of, positions, rate_at};
ghost use Rattle.demo_course.specs.Laws.{within};

use crate::root::whole_root;
use crate::{Axis, LAST_TICK};
use rand_core::SeedableRng;
use rand_core::utils::NextWord;
use rand_pcg::Pcg32;
use std::alloc::{AllocError, Global};
use std::marker::Model;

// How many words a course draws: two for each stretch, and two for each beacon.
const WORDS: usize = 50;

// The word that draws the place of the first beacon.
const FIRST_PLACE: usize = 40;

// The greatest rate, in millimetres a tick.
const RATE_REACH: u32 = 20;

// The greatest coordinate of a beacon, in millimetres.
const PLACE_REACH: u32 = 20_000;

/// What a seed draws. A contract sees the list of the words.
#[derive(Debug, Drop)]
pub struct Course {
    words: Vec<u32>,
}

impl Model for Course {
    ghost use Rattle.std.specs.Prelude.{◌≡◌, List, ℕ, length};

    ghost Value = { List ℕ };

    ghost view = { λ c. c.words.items };

    ghost invariant = { λ c. length c.words.items ≡ 50 };
}

impl Course {
    /// The course of a seed.
    pub fn new(alloc: Global, seed: u64) -> Result<Course, AllocError>
        ensures { IfOk result (λ course. course ≡ words_of seed 50) }
    {
        let words = draw_words(alloc, seed)?;
        Ok(Course { words })
    }

    /// The rate along an axis in a stretch, in millimetres a tick.
    pub fn rate(&self, axis: Axis, stretch: u32) -> i64
        requires { stretch < 20 }
        ensures value { result ≡ rate_of self.now axis stretch }
        ensures small { Holds (within 20) result }
    {
        draw(RATE_REACH, self.word(2 * stretch as usize + offset(axis)))
    }

    /// The coordinate of a beacon, in millimetres.
    pub fn place(&self, axis: Axis, beacon: u32) -> i64
        requires { beacon < 5 }
        ensures value { result ≡ place_of self.now axis beacon }
        ensures small { Holds (within 20000) result }
    {
        draw(
            PLACE_REACH,
            self.word(2 * beacon as usize + FIRST_PLACE + offset(axis)),
        )
    }

    /// The positions along an axis at the ticks 0 to 2000, in millimetres.
    pub fn positions(&self, alloc: Global, axis: Axis) -> Result<Vec<i64>, AllocError>
        ensures { IfOk result (λ all. all.items ≡ positions self.now axis) }
    {
        let mut all = Vec::new(alloc);
        let mut position = 0;
        for tick in 0..LAST_TICK + 1 {
            all.push(position)?;
            position += self.rate_at(axis, tick);
        }
        Ok(all)
    }

    /// The whole part of the distance of the position at a tick from a beacon, where `x` and `y` are the positions.
    pub fn distance(&self, x: &[i64], y: &[i64], tick: u32, beacon: u32) -> u64
        requires x { x.now ≡ positions self.now Axis.X }
        requires y { y.now ≡ positions self.now Axis.Y }
        requires tick { tick ≤ 2000 }
        requires beacon { beacon < 5 }
        ensures value { result ≡ distance_of self.now tick beacon }
        ensures small { result ≤ 90000 }
    {
        let across = self.difference(Axis::X, x, tick, beacon);
        let along = self.difference(Axis::Y, y, tick, beacon);
        whole_root(squared_length(across, along))
    }

    // How far the position at a tick is from a beacon along an axis, of which these are the positions.
    fn difference(&self, axis: Axis, track: &[i64], tick: u32, beacon: u32) -> i64
        requires track { track.now ≡ positions self.now axis }
        requires tick { tick ≤ 2000 }
        requires beacon { beacon < 5 }
        ensures value { result ≡ difference self.now axis tick beacon }
        ensures near { Holds (within 60000) result }
    {
        track[tick as usize] - self.place(axis, beacon)
    }

    // The word with a place in the list.
    fn word(&self, place: usize) -> u32
        requires { place < 50 }
        ensures { result ≡ slice_index self.now place }
    {
        self.words[place]
    }

    // The rate at a tick.
    fn rate_at(&self, axis: Axis, tick: u32) -> i64
        requires { tick ≤ 2000 }
        ensures { result ≡ rate_at self.now axis tick }
    {
        self.rate(axis, (tick / 100).min(19))
    }
}

// The words that a seed gives.
fn draw_words(alloc: Global, seed: u64) -> Result<Vec<u32>, AllocError>
    ensures drawn { IfOk result (λ words. words.items ≡ words_of seed 50) }
    ensures size { IfOk result (λ words. length words.items ≡ 50) }
{
    let mut generator = Pcg32::seed_from_u64(seed);
    let mut words = Vec::new(alloc);
    for _i in 0..WORDS {
        words.push(generator.next_word())?;
    }
    Ok(words)
}

// The square of the length of a step across and along.
fn squared_length(across: i64, along: i64) -> u64
    requires across { Holds (within 60000) across }
    requires along { Holds (within 60000) along }
    ensures { result ≡ natural ((across *ℤ across) +ℤ (along *ℤ along)) }
{
    let across = across.unsigned_abs();
    let along = along.unsigned_abs();
    across * across + along * along
}

// The number from `-reach` to `reach` that a word draws.
fn draw(reach: u32, word: u32) -> i64
    requires { reach ≤ 20000 }
    ensures { result ≡ draw reach word }
{
    i64::from(word % (2 * reach + 1)) - i64::from(reach)
}

// Draws come in pairs, that of x first.
fn offset(axis: Axis) -> usize
    ensures { result ≡ offset_of axis }
{
    match axis {
        Axis::X => 0,
        Axis::Y => 1,
    }
}
