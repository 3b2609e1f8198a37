ghost use Rattle.std.specs.Prelude.{◌≡◌, None};

use ctc_network::{CtcId, Net};
use mission_loops::FoundSets;
use mission_net::AnyCtc;
use tube_store::Store;

/// How a run ended. The numbers are the exit statuses of the program.
#[derive(Clone, Copy, Debug, PartialEq, Eq)]
pub enum Status {
    /// The report was written, and its last section has a common fixpoint.
    Settled = 0,
    /// The report was written, and its last section is empty: no trajectory fits the log.
    Empty = 1,
    /// The command refuses the words; the usage line was written.
    Usage = 2,
    /// The log is refused; the line of the fault was written.
    Refused = 3,
    /// The source failed; nothing was written.
    ReadFault = 4,
    /// The sink failed; a prefix was written.
    WriteFault = 5,
    /// The report was written up to a section that was spent: the budget ran out first.
    Spent = 6,
    /// Memory ran out; the sections before were written, and what is told of the queries before.
    NoMemory = 7,
}

/// Where the budget was spent, which is the last section.
#[derive(Drop)]
pub struct SpentAt {
    /// The number of the section, from 1.
    pub section: u32,
    /// A contractor that still narrows the box, by its number among those of the records.
    pub ctc: CtcId,
    /// The measure of the box at the section's start: the sum of the widths of its cells.
    pub began: u128,
    /// The measure of the box when it was given up.
    pub now: u128,
    /// The box.
    pub store: Store,
}

/// What a run leaves.
#[derive(Drop)]
pub struct Ended {
    /// How it ended.
    pub status: Status,
    /// Where the budget was spent, if it was.
    pub spent: Option<SpentAt>,
    /// The settled net, where the plan hands it out and the status is `Settled`.
    pub net: Option<Net<AnyCtc>>,
    /// The sets of the last query with what is found of each, where the plan hands them out, the status is `Settled`, findings were asked
    /// for, there is a query and the last one is not crowded.
    pub found: Option<FoundSets>,
}

impl Ended {
    /// A status and nothing else.
    pub(crate) fn only(status: Status) -> Ended
        ensures { result ≡ record { status = status; spent = None; net = None; found = None } }
    {
        Ended {
            status,
            spent: None,
            net: None,
            found: None,
        }
    }
}
