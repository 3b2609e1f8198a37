//! How the program is called.

ghost use Rattle.tube_io.specs.Sends.{Sends};
ghost use Rattle.cli_words.specs.Usage.{usage_line};

use tube_io::{Sink, WriteFault, write_all};

/// Writes how the program is called, which is all that is written where the words name no run. After an
/// error, which is a failed write, a prefix of it was taken.
#[tactic(auto, unfolding(crate::specs::Usage::usage_line))]
pub fn write_usage<K: Sink>(sink: &mut K) -> Result<(), WriteFault>
    ensures { Sends K.written K.flushed K.faults usage_line sink.old sink.new result }
{
    write_all(
        sink,
        b"usage: codac_cli solve|loops|demo|area [--budget N] [--order fifo|lifo|rank] [--brief] [--seed N] [--step N]\n",
    )
}
