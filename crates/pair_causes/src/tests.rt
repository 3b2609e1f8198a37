//! Sources with each cause, and with each two; and what links say.

use crate::{Linked, PairCause, PairFault, read_both};
use slice_gates::Ticks;
use std::alloc::{AllocError, Global};
use std::test::Fail;
use tube_store::SignalId;

// The causes in order, and where each holds in a source that is made to have it.
const CAUSES: [(PairCause, u32); 9] = [
    (PairCause::Form, 0),
    (PairCause::FirstLog, 4),
    (PairCause::SecondLog, 5),
    (PairCause::Heads, 0),
    (PairCause::Sections, 4),
    (PairCause::SecondMap, 5),
    (PairCause::Offset, 0),
    (PairCause::Link, 2),
    (PairCause::LongName, 0),
];

// The part of a source that can have a cause, without it or with it.
fn part(cause: PairCause, is_wrong: bool) -> &'static [u8] {
    match (cause, is_wrong) {
        (PairCause::Form, false) => b"end\n",
        (PairCause::Form, true) => b"end \n",
        (PairCause::FirstLog, true) => b"at,x,11,0,0\n",
        (PairCause::SecondLog, true) => b"at,z,0,0,0\n",
        (PairCause::Heads, false) => b"mission,1,10,5\n",
        (PairCause::Heads, true) => b"mission,1,10,10\n",
        (PairCause::Sections, true) => b"settle\n",
        (PairCause::SecondMap, true) => b"ping,x,y,0,1,?,0,5\n",
        (PairCause::Offset, false) => b"offset -3 3\n",
        (PairCause::Offset, true) => b"offset 3 -3\n",
        (PairCause::Link, false) => b"link 4 0 60 x y x y\n",
        (PairCause::Link, true) => b"link 4 0 60 x y b y\n",
        (PairCause::LongName, false) => b"var,name_of_thirty_bytes_in_total_,0,1\n",
        (PairCause::LongName, true) => b"var,name_of_thirty_one_bytes_in_all,0,1\n",
        _ => b"",
    }
}

// These parts one after the other.
fn joined(alloc: Global, parts: &[&[u8]]) -> Result<Vec<u8>, AllocError> {
    let mut text = Vec::new(alloc);
    for part in parts {
        text.extend_from_slice(part)?;
    }
    Ok(text)
}

// The source that holds two logs, an offset, links and an end.
fn source(alloc: Global, logs: [&[u8]; 2], rest: &[u8]) -> Result<Vec<u8>, AllocError> {
    let [first, second] = logs;
    let head = format!(in alloc; "pair {} {}\n", first.len(), second.len())?;
    joined(alloc, &[head.as_bytes(), first, b"\n", second, b"\n", rest])
}

const HERE: &[u8] = b"mission,1,10,5\nsignal,x,0,9\nsignal,y,0,9\n";

const THERE: &[u8] = b"signal,x,0,9\nsignal,y,0,9\nbeacon,b,0,9,0,9\n";

// The source that has these causes.
fn source_with(alloc: Global, causes: [PairCause; 2]) -> Result<Vec<u8>, AllocError> {
    let of = |cause: PairCause| part(cause, causes[0] == cause || causes[1] == cause);
    let first = joined(
        alloc,
        &[HERE, of(PairCause::FirstLog), of(PairCause::Sections)],
    )?;
    let second = joined(
        alloc,
        &[
            of(PairCause::Heads),
            THERE,
            of(PairCause::SecondLog),
            of(PairCause::SecondMap),
            of(PairCause::LongName),
        ],
    )?;
    let rest = joined(
        alloc,
        &[
            of(PairCause::Offset),
            part(PairCause::Link, false),
            of(PairCause::Link),
            of(PairCause::Form),
        ],
    )?;
    source(
        alloc,
        [first.as_slice(), second.as_slice()],
        rest.as_slice(),
    )
}

#[test]
fn the_lowest_of_two_causes_is_told(rt: HostRuntime) -> Result<(), Fail> {
    for (i, (lower, at)) in CAUSES.iter().enumerate() {
        for (higher, _) in &CAUSES[i..] {
            let bytes = source_with(rt.alloc(), [*lower, *higher])?;
            assert!(rt; bytes.len() <= 1_000);
            let fault = read_both(rt.alloc(), bytes.as_slice()).err();
            let told = PairFault::Bad {
                at: *at,
                cause: *lower,
            };
            assert_eq!(rt; fault, Some(told), "with {lower:?} and {higher:?}");
        }
    }
    Ok(())
}

// What is told of one link under an offset, over clocks of the ticks 0 to 10.
fn told(alloc: Global, rest: &[u8]) -> Result<Result<Linked, PairFault>, Fail> {
    let second = joined(alloc, &[b"mission,1,10,5\nsignal,w,0,9\n", THERE])?;
    let bytes = source(alloc, [HERE, second.as_slice()], rest)?;
    if bytes.len() > 1_000 {
        return Ok(Err(PairFault::NoMemory));
    }
    match read_both(alloc, bytes.as_slice()) {
        Ok(pair) => Ok(Ok(*pair.links.first().ok_or("no link")?)),
        Err(fault) => Ok(Err(fault)),
    }
}

#[test]
fn links_say_where_the_robots_were(rt: HostRuntime) -> Result<(), Fail> {
    let cases: [(&[u8], u32, u32); 7] = [
        (b"offset -3 3\nlink 4 0 60 x y x y\nend\n", 1, 7),
        (b"offset 0 6\nlink +4 60 60 x y x y\nend\n", 4, 10),
        (
            b"offset 0 2000\nlink 010 0 2000000000 x y x y\nend\n",
            10,
            10,
        ),
        (b"offset -2000 0\nlink 0 0 0 x y x y\nend\n", 0, 0),
        (b"offset 5 5\nlink 5 0 60 x y x y\nend\n", 10, 10),
        (b"offset -5 -5\nlink 5 0 60 x y x y\nend\n", 0, 0),
        (b"offset -7 -5\nlink 5 0 60 x y x y\nend\n", 0, 0),
    ];
    for (rest, first, last) in cases {
        let link = match told(rt.alloc(), rest)? {
            Ok(link) => link,
            Err(fault) => {
                assert_eq!(rt; Some(fault), None, "at {rest:?}");
                continue;
            }
        };
        assert_eq!(rt; link.times, Ticks { first, last }, "at {rest:?}");
        assert_eq!(rt; link.first, (SignalId(0), SignalId(1)));
        assert_eq!(rt; link.second, (SignalId(1), SignalId(2)));
    }
    Ok(())
}

#[test]
fn limits_are_kept(rt: HostRuntime) -> Result<(), Fail> {
    let cases: [(&[u8], u32, PairCause); 17] = [
        (b"offset 0 2001\nend\n", 0, PairCause::Offset),
        (b"offset -100001 -100000\nend\n", 0, PairCause::Offset),
        (b"offset 100000 100001\nend\n", 0, PairCause::Offset),
        (b"offset 1 0\nend\n", 0, PairCause::Offset),
        (
            b"offset -999999999999999999 999999999999999999\nend\n",
            0,
            PairCause::Offset,
        ),
        (
            b"offset 0 0\nlink 11 0 1 x y x y\nend\n",
            1,
            PairCause::Link,
        ),
        (
            b"offset 0 0\nlink -1 0 1 x y x y\nend\n",
            1,
            PairCause::Link,
        ),
        (
            b"offset 100000 100000\nlink 999999999999999999 0 1 x y x y\nend\n",
            1,
            PairCause::Link,
        ),
        (b"offset 6 6\nlink 5 0 1 x y x y\nend\n", 1, PairCause::Link),
        (
            b"offset -6 -6\nlink 5 0 1 x y x y\nend\n",
            1,
            PairCause::Link,
        ),
        (
            b"offset 0 0\nlink 5 -1 1 x y x y\nend\n",
            1,
            PairCause::Link,
        ),
        (b"offset 0 0\nlink 5 2 1 x y x y\nend\n", 1, PairCause::Link),
        (
            b"offset 0 0\nlink 5 0 2000000001 x y x y\nend\n",
            1,
            PairCause::Link,
        ),
        (b"offset 0 0\nlink 5 0 1 x x x y\nend\n", 1, PairCause::Link),
        (b"offset 0 0\nlink 5 0 1 x y y y\nend\n", 1, PairCause::Link),
        (b"offset 0 0\nlink 5 0 1 w y x y\nend\n", 1, PairCause::Link),
        (b"offset 0 0\nlink 5 0 1 x y x b\nend\n", 1, PairCause::Link),
    ];
    for (rest, at, cause) in cases {
        let fault = told(rt.alloc(), rest)?.err();
        assert_eq!(rt; fault, Some(PairFault::Bad { at, cause }), "at {rest:?}");
    }
    Ok(())
}

#[test]
fn records_of_both_logs_are_judged(rt: HostRuntime) -> Result<(), Fail> {
    let alloc = rt.alloc();
    let head: &[u8] = b"mission,1,10,5\n";
    let rest: &[u8] = b"offset 0 0\nend\n";
    let cases: [(&[u8], &[u8], Option<(u32, PairCause)>); 12] = [
        (b"", b"", Some((0, PairCause::FirstLog))),
        (b"mission,1,10,5", b"#\n", Some((0, PairCause::SecondLog))),
        (head, b"mission,2,10,5\n", Some((0, PairCause::Heads))),
        (head, b"mission,1,11,5\n", Some((0, PairCause::Heads))),
        (
            b"mission,2,10,5\ncut,5\ncut,3\n",
            b"mission,2,10,5\ncut,2\n",
            Some((0, PairCause::Heads)),
        ),
        (
            b"mission,2,10,5\ncut,3\ncut,5\n",
            b"#\nmission,2,10,5\ncut,3\n",
            None,
        ),
        (
            head,
            b"#\nmission,1,10,5\nsettle\nsettle\n",
            Some((3, PairCause::Sections)),
        ),
        (
            b"mission,1,10,5\n#\nsettle\n",
            b"mission,1,10,5\nsettle\n",
            Some((3, PairCause::Sections)),
        ),
        (
            b"mission,1,10,5\nsignal,x,0,1\nsignal,y,0,1\nbeacon,b,0,1,0,1\nping,x,y,0,1,?,0,5\nvar,p,0,1\nvar,q,0,1\nconstell,p,q\n",
            b"mission,1,10,5\nsignal,x,0,1\nsignal,y,0,1\nbeacon,b,0,1,0,1\nping,x,y,0,1,b,0,5\n",
            None,
        ),
        (
            head,
            b"mission,1,10,5\nbeacon,b,0,1,0,1\nvar,p,0,1\nvar,q,0,1\nconstell,p,q\nconstell,p,q\n",
            Some((5, PairCause::SecondMap)),
        ),
        (
            b"mission,1,10,5\nbeacon,name_of_thirty_one_bytes_in_all,0,1,0,1\n",
            head,
            Some((0, PairCause::LongName)),
        ),
        (
            b"mission,1,10,5\nsignal,name_of_thirty_bytes_in_total_,0,1\n",
            b"mission,1,10,5\nsignal,name_of_thirty_one_bytes_in_all,0,1\n",
            Some((0, PairCause::LongName)),
        ),
    ];
    for (first, second, told) in cases {
        let bytes = source(alloc, [first, second], rest)?;
        assert!(rt; bytes.len() <= 1_000);
        let fault = match read_both(alloc, bytes.as_slice()) {
            Err(PairFault::Bad { at, cause }) => Some((at, cause)),
            _ => None,
        };
        assert_eq!(rt; fault, told, "at {first:?} and {second:?}");
    }
    Ok(())
}
