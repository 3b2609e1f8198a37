//! A network of contractors over one store, which fires them until its box is their greatest common fixpoint.
//!
//! A [`Net`] has cells, as a store has them, and contractors, each under a number. Firing a contractor narrows cells and removes no
//! fixpoint of it. [`Net::settle`] fires those that wait, one at a time, until none narrows any cell by even one, so that the box is
//! the greatest box below the one before that all contractors leave, or it is empty and there is none. Which order the firings take
//! makes no difference to that box: [`schedule_law`] says so of every list of additions and firings, and [`section_law`] of going on
//! after additions.
//!
//! A contractor waits from its addition on, and rests where it was fired and left the box. Where a cell is narrowed, the contractors that
//! read it wait again, and so does the one that narrowed it. So whoever rests leaves the box, and the steps are bounded by what narrows.
//!
//! A contractor can be taken out, and cells be given back wider intervals: [`Net::remove`] and [`Net::reset`]. Whoever reads or writes one of
//! these cells waits then, so that settling goes on from what the others still hold.
//!
//! Networks of contractors are those of Codac (Rohou, Jaulin and others). That this one goes on to the exact greatest fixpoint, or until
//! a budget of width is spent, is a rule of its own.
#![tactic(auto)]

mod answers;
mod laws;
mod net;
mod noting;
mod places;
mod rousing;
mod turns;
mod using;

pub use answers::{AddFault, CtcId, Order, Settled};
pub use laws::{event_law, schedule_law, section_law};
pub use net::Net;
pub use tube_limits::MOST_READS;
