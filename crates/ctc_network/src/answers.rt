//! The names and answers of a net.

ghost use Rattle.std.specs.Prelude.{◌≡◌, ◌<◌, Some, true, false, All, IsFalse, MatchOption, slice_get, slice_set};
ghost use Rattle.ctc_network.specs.declared.answers.AddFault.TheVariants.{NoMemory};

use once_queue::Waiting;
use std::alloc::AllocError;

/// The number of a contractor, from 0 in order of addition.
#[derive(Clone, Copy, Debug, PartialEq, Eq)]
pub struct CtcId(pub u32);

/// Why a contractor could not be added.
#[derive(Clone, Copy, Debug, PartialEq, Eq)]
pub enum AddFault {
    /// The contractors would read more than `MOST_READS` cells, those of each added up.
    FootFull,
    /// Memory ran out.
    NoMemory,
}

impl From<AllocError> for AddFault {
    ghost from_gives = { λ _ fault. fault ≡ NoMemory };

    fn from(_error: AllocError) -> AddFault {
        AddFault::NoMemory
    }
}

/// Which of the contractors that wait is fired next. The order makes no difference to the box at the end.
#[derive(Clone, Copy, Debug, PartialEq, Eq)]
pub enum Order {
    /// The one that has waited longest.
    Fifo,
    /// The one that began to wait last.
    Lifo,
    /// The one with the least number.
    Rank,
}

impl Order {
    // Takes the contractor that comes next, so that it rests, or says that none waits.
    pub(crate) fn take(self, waiting: &mut Waiting) -> Option<u32>
        ensures { MatchOption result (All IsFalse waiting.old × (waiting.new ≡ waiting.old)) (λ number. (slice_get waiting.old number ≡ Some true) × (waiting.new ≡ slice_set waiting.old number false)) }
    {
        match self {
            Order::Fifo => waiting.take_first(),
            Order::Lifo => waiting.take_last(),
            Order::Rank => waiting.take_least(),
        }
    }
}

/// How settling ended.
#[derive(Clone, Copy, Debug, PartialEq, Eq)]
pub enum Settled {
    /// The box is the greatest common fixpoint below the box before.
    Fixpoint,
    /// The box is empty: no common fixpoint lies below the box before.
    Empty,
    /// The measure fell by the budget, and this contractor still narrows the box.
    Spent(CtcId),
}
