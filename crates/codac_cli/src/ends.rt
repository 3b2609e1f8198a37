//! Runs over sources and sinks that give and take little a call, and of which single calls fail. Expected bytes were worked out from the
//! formulas, and none was taken from the program. Worked missions stand in `tests/reports`.

ghost use Rattle.std.specs.Prelude.{◌<◌};

use crate::run_counted;
use cli_words::Words;
use codac_run::Status;
use std::alloc::Global;
use std::marker::Brand;
use std::sync::ledger::Blank;
use std::test::Fail;
use tube_io::{MemSink, MemSource};

// Out and back along a line in two sections, and the question for places that were left two ticks ago.
const LOG: &[u8] =
    b"mission,1,4,1\nsignal,x,0,2\nsignal,y,0,0\nat,x,0,0,0\nat,x,1,1,1\nat,x,2,2,2\nat,x,3,1,1\nsettle\nat,x,4,0,0\nrevisit,x,y,0,2\n";

const REPORT: &[u8] =
    b"section 1 settled\nbrief x 0 2 7\nbrief y 0 0 0\nend 1\nsection 2 settled\nbrief x 0 2 4\nbrief y 0 0 0\nend 2\nloops 1 sets 1\nset 1 pairs 2 a 0 1 b 3 4 proved sure 0 4\ndone 1\n";

// The status and the bytes of a run over ends that give and take at most so many bytes a call, of which the calls with these numbers fail.
fn ran(
    alloc: Global,
    line: &str,
    log: &[u8],
    most: usize,
    read_fails: &[u64],
    write_fails: &[u64],
) -> Result<(Status, Vec<u8>), Fail>
    requires { 0 < most }
{
    let mut words = Words::new(alloc);
    for word in line.split(' ') {
        words.push(alloc, word)?;
    }
    let bytes = Vec::from_slice(alloc, log)?;
    let mut source = MemSource::new(bytes, most, Vec::from_slice(alloc, read_fails)?);
    let mut sink = MemSink::<1000>::new(most, Vec::from_slice(alloc, write_fails)?);
    let ended = run_counted::<_, _, Brand>(alloc, &words, &mut source, &mut sink, Blank::new(1));
    Ok((ended.status, Vec::from_slice(alloc, sink.bytes())?))
}

// The log is read in six calls of 20 bytes, and its end in a seventh; from there on no call is made.
#[test]
fn reads_that_fail(rt: HostRuntime) -> Result<(), Fail> {
    for failing in 0..9 {
        let (status, text) = ran(rt.alloc(), "loops --brief", LOG, 20, &[failing], &[])?;
        let want = if failing < 7 {
            (Status::ReadFault, b"".as_slice())
        } else {
            (Status::Settled, REPORT)
        };
        assert_eq!(rt; (status, text.as_slice()), want, "{failing}");
    }
    Ok(())
}

// What was written is a front of the report, and all of it where no write failed.
#[test]
fn writes_that_fail(rt: HostRuntime) -> Result<(), Fail> {
    for most in [1, 7, 4096] {
        for failing in 0..200 {
            let (status, text) = ran(rt.alloc(), "loops --brief", LOG, most, &[], &[failing])?;
            assert!(rt; REPORT.starts_with(text.as_slice()), "{most} {failing}");
            let whole = status == Status::Settled && text.as_slice() == REPORT;
            assert!(rt; whole || status == Status::WriteFault, "{most} {failing}");
        }
    }
    Ok(())
}

// The line of a usage and that of a fault, of which the first write fails, and a mode that reads no log.
#[test]
fn lines_that_fail(rt: HostRuntime) -> Result<(), Fail> {
    for (line, reads, writes) in [
        ("solve fast", [9], [0]),
        ("solve", [9], [0]),
        ("demo --seed 7", [0], [9]),
    ] {
        let (status, text) = ran(rt.alloc(), line, b"", 7, &reads, &writes)?;
        assert_eq!(rt; status, Status::WriteFault, "{line}");
        assert_eq!(rt; text.is_empty(), writes == [0], "{line}");
    }
    Ok(())
}
