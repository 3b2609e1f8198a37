//! The lines of a bundle, a bundle read back, and texts that are none.

use bundle_reader::{BundleFault, read_bundle};
use bundle_text::{BundleLine, Label, Listed, write_line};
use loop_sets::Finding;
use std::alloc::AllocError;
use std::test::Fail;
use tplane_paver::Run;
use tube_io::{SureSink, WriteFault};
use tube_report::Verdict;

// A line of each kind, and of each label, with the least and the greatest numbers.
#[test]
fn writes_lines_of_a_bundle(rt: HostRuntime) {
    let lines = [
        BundleLine::Bundle(0),
        BundleLine::Fires(1, 4_294_967_295),
        BundleLine::Fire(17),
        BundleLine::Sets(2, 0),
        BundleLine::Crowded(10),
        BundleLine::Cell(3, 4_294_967_295),
        BundleLine::Corner(3, 9, Label::East),
        BundleLine::Corner(3, 10, Label::West),
        BundleLine::Corner(0, 0, Label::North),
        BundleLine::Corner(4, 9, Label::South),
        BundleLine::Done(2),
    ];
    let text =
        b"bundle 0\nfires 1 4294967295\nfire 17\nloops 2 sets 0\nloops 10 crowded\ncell 3 4294967295\ncorner 3 9 east\ncorner 3 10 west\ncorner 0 0 north\ncorner 4 9 south\ndone 2\n";
    let mut sink = SureSink::<200>::new();
    for line in lines {
        assert_eq!(rt; write_line(line, &mut sink), Ok(()));
    }
    assert_eq!(rt; sink.bytes(), text.as_slice());
}

// A sink that is full has the front of the line.
#[test]
fn stops_where_a_write_fails(rt: HostRuntime) {
    let mut sink = SureSink::<7>::new();
    assert_eq!(rt;
        write_line(BundleLine::Cell(12, 34), &mut sink),
        Err(WriteFault)
    );
    assert_eq!(rt; sink.bytes(), b"cell 12".as_slice());
}

// The numbers of firings, as a bundle keeps them.
#[test]
fn lists_what_was_fired(rt: HostRuntime) -> Result<(), Fail> {
    let fired: Listed<u32> = Listed::new(vec![in rt.alloc(); 3, 0, 3]?);
    assert_eq!(rt; fired.as_slice(), [3, 0, 3].as_slice());
    Ok(())
}

// The lines of a bundle whose log is one byte, with one of everything.
const LINES: [&[u8]; 12] = [
    b"bundle 1\n",
    b"x\n",
    b"fires 1 1\n",
    b"fire 0\n",
    b"section 1 empty\n",
    b"end 1\n",
    b"loops 7 sets 1\n",
    b"set 1 pairs 3 a 4 4 b 9 11 proved degree -1\n",
    b"run 4 9 11\n",
    b"cell 3 9\n",
    b"corner 3 9 east\n",
    b"done 7\n",
];

// The same with another line in the place of one.
fn with_line(rt: &HostRuntime, at: usize, line: &[u8]) -> Result<Vec<u8>, AllocError> {
    let mut text = Vec::new(rt.alloc());
    for (i, whole) in LINES.iter().enumerate() {
        text.extend_from_slice(if i == at { line } else { whole })?;
    }
    Ok(text)
}

// What stands in each line.
#[test]
fn reads_a_bundle(rt: HostRuntime) -> Result<(), Fail> {
    let text = with_line(&rt, 1, b"\n\n")?;
    assert!(rt; text.len() < 1000);
    let bundle = read_bundle(rt.alloc(), text.as_slice())?;
    assert_eq!(rt; bundle.log.as_slice(), b"\n".as_slice());
    assert_eq!(rt;
        (
            bundle.sections.as_slice().len(),
            bundle.queries.as_slice().len()
        ),
        (1, 1)
    );
    let traced = &bundle.sections.as_slice()[0];
    assert_eq!(rt; traced.fired.as_slice(), [0].as_slice());
    assert_eq!(rt;
        (traced.section.number, traced.section.verdict),
        (1, Verdict::Empty)
    );
    let query = &bundle.queries.as_slice()[0];
    assert_eq!(rt; query.number, 7);
    let Some(sets) = &query.sets else {
        return Err(Fail::from("sets"));
    };
    assert_eq!(rt; sets.as_slice().len(), 1);
    let set = &sets.as_slice()[0];
    assert_eq!(rt; (set.pairs, set.a, set.b), (3, (4, 4), (9, 11)));
    assert_eq!(rt; set.finding, Finding::Degree(-1));
    let run = Run {
        a: 4,
        first: 9,
        last: 11,
    };
    assert_eq!(rt; set.runs.as_slice(), [run].as_slice());
    assert_eq!(rt; set.cells.as_slice(), [(3, 9)].as_slice());
    assert_eq!(rt; set.corners.as_slice(), [(3, 9, Label::East)].as_slice());
    Ok(())
}

// Lines in the place of one that leave a bundle: other numbers, other findings, and no line at all or two.
#[test]
fn reads_other_lines(rt: HostRuntime) -> Result<(), Fail> {
    let cases: [(usize, &[u8]); 9] = [
        (2, b"fires 1 0\nsection 1 spent\nend 1\nfires 1 1\n"),
        (3, b"fire 4294967295\n"),
        (
            5,
            b"gate 0 1 1\nend 1\nfires 1000000 0\nsection 1000000 settled\nend 1000000\n",
        ),
        (6, b"loops 7 crowded\ndone 7\nloops 7 sets 1\n"),
        (
            7,
            b"set 1 pairs 18446744073709551615 a 0 0 b 0 0 proved degree -9223372036854775808\n",
        ),
        (8, b"run 4 9 11\nrun 0 0 0\n"),
        (9, b""),
        (10, b"corner 3 9 west\ncorner 3 9 north\ncorner 3 9 south\n"),
        (11, b"done 7\nloops 0 sets 0\ndone 0\n"),
    ];
    for (at, line) in cases {
        let text = with_line(&rt, at, line)?;
        assert!(rt; text.len() < 1000);
        assert!(rt;
            read_bundle(rt.alloc(), text.as_slice()).is_ok(),
            "at {line:?}"
        );
    }
    Ok(())
}

// Lines in the place of one that leave no bundle.
#[test]
fn refuses_other_texts(rt: HostRuntime) -> Result<(), Fail> {
    let cases: [(usize, &[u8]); 37] = [
        (0, b""),
        (0, b"bundle 2\n"),
        (0, b"bundle 01\n"),
        (0, b"bundle +1\n"),
        (0, b"bundle 4294967297\n"),
        (1, b"x"),
        (1, b"xy\n"),
        (2, b"fires 2 1\n"),
        (2, b"fires 1 2\n"),
        (2, b"fires 1\n"),
        (3, b""),
        (3, b"fire -1\n"),
        (3, b"fire 4294967296\n"),
        (4, b"section 1 done\n"),
        (5, b""),
        (5, b"end 2\n"),
        (5, b"end 1\n\n"),
        (6, b"loops 7 sets 2\n"),
        (6, b"loops 7 sets 0\n"),
        (6, b"loops 7 crowded\n"),
        (7, b"set 0 pairs 3 a 4 4 b 9 11 proved degree -1\n"),
        (
            7,
            b"set 1 pairs 18446744073709551616 a 4 4 b 9 11 proved degree -1\n",
        ),
        (7, b"set 1 pairs 3 a 4 4 b 9 11 proved degree -0\n"),
        (
            7,
            b"set 1 pairs 3 a 4 4 b 9 11 proved degree 9223372036854775808\n",
        ),
        (7, b"set 1 pairs 3 a 4 4 b 9 11 proved sure 4 9\n"),
        (7, b"set 1 pairs 3 a 4 4 b 9 11 possible\n"),
        (7, b"set 1 pairs 3 a 4  4 b 9 11 proved degree -1\n"),
        (8, b""),
        (8, b"run 4 11 9\n"),
        (8, b"cell 3 9\nrun 4 9 11\n"),
        (9, b"cell 3 9 \n"),
        (9, b"cell 3 9\r\n"),
        (10, b"corner 3 9 East\n"),
        (10, b"corner 3 9 east"),
        (11, b"done 1\n"),
        (11, b"done 7"),
        (11, b"done 7\n\n"),
    ];
    for (at, line) in cases {
        let text = with_line(&rt, at, line)?;
        assert!(rt; text.len() < 1000);
        assert_eq!(rt;
            read_bundle(rt.alloc(), text.as_slice()).err(),
            Some(BundleFault::Form),
            "at {line:?}"
        );
    }
    Ok(())
}
