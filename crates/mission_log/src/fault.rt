//! Why a log is refused.

ghost use Rattle.std.specs.Prelude.{◌≡◌};
ghost use Rattle.mission_log.specs.declared.fault.LogFault.TheVariants as LogFault;

use log_fields::Cause;
use std::alloc::AllocError;
use tube_io::NoMemory;

/// Why a log is refused.
#[derive(Clone, Copy, Debug, PartialEq, Eq)]
pub enum LogFault {
    /// The record with this number, from 1 on, has this cause. The number 0 stands for the whole log.
    Bad { number: u32, cause: Cause },
    /// Memory was refused.
    NoMemory,
}

impl From<NoMemory> for LogFault {
    ghost from_gives = { λ _ e. e ≡ LogFault.NoMemory };

    fn from(_e: NoMemory) -> LogFault {
        LogFault::NoMemory
    }
}

impl From<AllocError> for LogFault {
    ghost from_gives = { λ _ e. e ≡ LogFault.NoMemory };

    fn from(_e: AllocError) -> LogFault {
        LogFault::NoMemory
    }
}
