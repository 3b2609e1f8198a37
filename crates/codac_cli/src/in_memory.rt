//! What a run in memory hands out besides its report.

ghost use Rattle.std.specs.Prelude.{◌≡◌, ◌<◌};

use cli_words::Words;
use codac_run::{Ended, Status, run_in_memory};
use ctc_network::CtcId;
use loop_report::Finding;
use std::alloc::Global;
use std::marker::Brand;
use std::sync::ledger::{Blank, Ledger};
use std::test::Fail;
use step_count::Steps;
use tube_io::SureSink;

// A run in memory with a new counter of steps.
fn run_counted<L: Ledger>(
    alloc: Global,
    words: &Words,
    log: Vec<u8>,
    blank: Blank,
) -> (Ended, SureSink<200>)
    requires name { blank.name ≡ L.name }
    requires parts { blank.parts ≡ L.parts }
    requires some { 0 < L.parts }
{
    let mut steps = Steps::<L>::new(blank);
    run_in_memory::<200, L>(alloc, words, log, 4096, &mut steps)
}

// What a run leaves, with a sink of 200 bytes.
fn ran(alloc: Global, line: &str, log: &[u8]) -> Result<(Ended, SureSink<200>), Fail> {
    let mut words = Words::new(alloc);
    for word in line.split(' ') {
        words.push(alloc, word)?;
    }
    let bytes = Vec::from_slice(alloc, log)?;
    Ok(run_counted::<Brand>(alloc, &words, bytes, Blank::new(1)))
}

// The second of three sections is spent: five cells of width 2,000 and one contractor that narrows, the second:
// that of the slices of x has the number 0.
#[test]
fn where_a_section_was_spent(rt: HostRuntime) -> Result<(), Fail> {
    let log = b"mission,1,10,5\nsignal,x,-1000,1000\nsettle\nat,x,0,0,0\nsettle\nat,x,10,0,0\n";
    let (ended, sink) = ran(rt.alloc(), "solve --budget 0 --brief", log)?;
    assert_eq!(rt; ended.status, Status::Spent);
    assert!(rt; ended.net.is_none() && ended.found.is_none());
    let at = ended.spent.ok_or("no section was spent")?;
    assert_eq!(rt;
        (at.section, at.ctc, at.began, at.now),
        (2, CtcId(1), 10_000, 10_000)
    );
    assert_eq!(rt;
        sink.bytes(),
        b"section 1 settled\nbrief x -1000 1000 10000\nend 1\nsection 2 spent\nbrief x -1000 1000 10000\nend 2\n".as_slice()
    );
    assert_eq!(rt; sink.flushed_len(), 96);
    Ok(())
}

// No contractor waits in the net, and the sets of the last question are those of which the report tells.
#[test]
fn the_net_and_the_sets(rt: HostRuntime) -> Result<(), Fail> {
    let log =
        b"mission,1,4,1\nsignal,x,0,2\nsignal,y,0,0\nat,x,0,0,0\nat,x,1,1,1\nat,x,2,2,2\nat,x,3,1,1\nat,x,4,0,0\nrevisit,x,y,0,5\nrevisit,x,y,0,2\n";
    let (ended, _sink) = ran(rt.alloc(), "loops --brief", log)?;
    assert!(rt; ended.status == Status::Settled && ended.spent.is_none());
    assert_eq!(rt; ended.net.ok_or("no net")?.waiting(), 0);
    let found = ended.found.ok_or("nothing was found")?;
    assert!(rt; found.as_slice().len() == 1);
    assert_eq!(rt; found.as_slice()[0].set.pairs(), 2);
    assert_eq!(rt; found.as_slice()[0].finding, Finding::Sure(0, 4));
    Ok(())
}

// A robot that is at 0 in the one tick and somewhere from 2 to 4 in the next, and sees one millimetre far in each coordinate. The map is told,
// and nothing is handed out beside it.
#[test]
fn the_map_of_a_query(rt: HostRuntime) -> Result<(), Fail> {
    let log =
        b"mission,1,1,1\nsignal,x,0,4\nsignal,y,0,0\nat,x,0,0,0\nat,x,1,2,4\nrevisit,x,y,1,1\n";
    let (ended, sink) = ran(rt.alloc(), "area --step 1 --brief", log)?;
    assert!(rt; ended.status == Status::Settled && ended.spent.is_none());
    assert!(rt; ended.net.is_none() && ended.found.is_none());
    assert_eq!(rt;
        sink.bytes(),
        b"section 1 settled\nbrief x 0 4 6\nbrief y 0 0 0\nend 1\narea 1 columns 7 rows 3 west -1 south -1 never 0 seen 12 open 9\ndone 1\n".as_slice()
    );
    assert_eq!(rt; sink.flushed_len(), sink.bytes().len());
    Ok(())
}
