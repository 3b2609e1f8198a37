//! What a run does, as the words ask for it: one line for each mode. Nothing else in a run asks for the mode.

ghost use Rattle.std.specs.Prelude.{◌≡◌, IfOk, IfSome};
ghost use Rattle.cli_words.specs.Asked.{HasStep};
ghost use Rattle.codac_run.specs.Plans.{order_of, plan_of, plan_with, planned};
ghost use Rattle.codac_run.specs.Tails.{CanTell};

use cli_words::{Asked, Mode, OrderWord, Words, read_words};
use ctc_network::Order;
use section_report::Choices;
use std::alloc::Global;
use tube_io::NoMemory;

/// Where the log of a run comes from.
#[derive(Clone, Copy, Debug, PartialEq, Eq)]
pub enum Origin {
    /// It is read from the source.
    Source,
    /// It is made from a seed.
    Demo { seed: u64 },
}

/// What is told after the sections.
#[derive(Clone, Copy, Debug, PartialEq, Eq)]
pub enum Tail {
    /// Nothing.
    Nothing,
    /// What is found of each query over the box of the last section.
    Findings,
    /// The area that each query's sensor has seen over this box, on a lattice with this step, in millimetres.
    Areas { step: u64 },
}

/// What a run does.
#[derive(Clone, Copy, Debug, PartialEq, Eq)]
pub struct Plan {
    /// Where its log comes from.
    pub origin: Origin,
    /// How the sections are settled and written.
    pub sections: Choices,
    /// What is told after them.
    pub tail: Tail,
    /// Whether the settled net and the sets of the last query are handed out.
    pub hands_out: bool,
}

/// The order of firing that a word names.
fn order_of(word: OrderWord) -> Order
    ensures { result ≡ order_of word }
{
    match word {
        OrderWord::Fifo => Order::Fifo,
        OrderWord::Lifo => Order::Lifo,
        OrderWord::Rank => Order::Rank,
    }
}

/// A run over a log from there, in sections as the words ask for, which hands out the settled net and the sets of the last query.
fn run_over(asked: &Asked, origin: Origin, tail: Tail) -> Plan
    ensures { result ≡ plan_with asked.now origin tail }
{
    Plan {
        origin,
        sections: Choices {
            order: order_of(asked.order),
            budget: asked.budget,
            brief: asked.brief,
        },
        tail,
        hands_out: true,
    }
}

/// The plan of what the words ask for. A demo is always told in brief, and after a chart of areas no net is handed out.
pub fn plan_of(asked: &Asked) -> Plan
    ensures plan { result ≡ plan_of asked.now }
    ensures tail { HasStep asked.now → CanTell result.tail }
{
    let seed = asked.seed;
    let step = asked.step;
    let in_brief = Asked {
        brief: true,
        ..*asked
    };
    match asked.mode {
        Mode::Solve => run_over(asked, Origin::Source, Tail::Nothing),
        Mode::Loops => run_over(asked, Origin::Source, Tail::Findings),
        Mode::Demo => run_over(&in_brief, Origin::Demo { seed }, Tail::Findings),
        Mode::Area => Plan {
            hands_out: false,
            ..run_over(asked, Origin::Source, Tail::Areas { step })
        },
    }
}

/// Reads the plan of a command line; none where its words are wrong.
pub(crate) fn read_plan(alloc: Global, words: &Words) -> Result<Option<Plan>, NoMemory>
    ensures plan { IfOk result (λ plan. plan ≡ planned words.now) }
    ensures tail { IfOk result (λ plan. IfSome plan (λ p. CanTell p.tail)) }
{
    match read_words(alloc, words)? {
        Some(asked) => Ok(Some(plan_of(&asked))),
        None => Ok(None),
    }
}
