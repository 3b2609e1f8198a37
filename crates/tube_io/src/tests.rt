//! Sources and sinks that fail at each place, and the real ones over readers and writers that fail.

ghost use Rattle.std.specs.Prelude.{◌≤◌, IfOk};

use super::*;
use std::io;
use std::io::{ErrorKind, Read, Write};
use std::test::Fail;

// Twenty bytes, a call that moves at most so many of them, and how many such calls they take.
const TEXT: &[u8] = b"mission,1,10,5\nnote\n";

const MOST: [(usize, u64); 4] = [(1, 20), (2, 10), (7, 3), (4096, 1)];

#[test]
fn reads_that_fail(rt: HostRuntime) -> Result<(), Fail> {
    for (most, moves) in MOST {
        for (limit, turns, end) in [
            (19, moves, Some(ReadEnd::TooLong)),
            (20, moves + 1, None),
            (21, moves + 1, None),
        ] {
            for fail in 0..23 {
                assert!(rt; most > 0);
                let bytes = Vec::from_slice(rt.alloc(), TEXT)?;
                let fails = Vec::from_slice(rt.alloc(), &[fail])?;
                let mut source = MemSource::new(bytes, most, fails);
                let (read, error) = match read_whole(rt.alloc(), &mut source, limit) {
                    Ok(read) => (read, None),
                    Err(error) => (Vec::new(rt.alloc()), Some(error)),
                };
                let want = if fail < turns {
                    Some(ReadEnd::Failed)
                } else {
                    end
                };
                assert_eq!(rt;
                    error,
                    want,
                    "{most} a read, at most {limit}, read {fail} fails"
                );
                if error.is_none() {
                    assert_eq!(rt; read.as_slice(), TEXT);
                    assert!(rt; source.rest().is_empty());
                }
            }
        }
    }
    Ok(())
}

#[test]
fn writes_that_fail(rt: HostRuntime) -> Result<(), Fail> {
    for (most, moves) in MOST {
        for fail in 0..23 {
            assert!(rt; most > 0);
            let fails = Vec::from_slice(rt.alloc(), &[fail])?;
            let mut sink = MemSink::<32>::new(most, fails);
            let written = write_all(&mut sink, TEXT);
            let flushed = sink.flush();
            assert_eq!(rt;
                written.is_err(),
                fail < moves,
                "{most} a write, call {fail} fails"
            );
            assert_eq!(rt; flushed == Flushed::Failed, fail == moves);
            let taken = if fail < moves {
                fail as usize * most
            } else {
                TEXT.len()
            };
            assert_eq!(rt; sink.bytes().len(), taken);
            assert!(rt; TEXT.starts_with(sink.bytes()));
            assert_eq!(rt; sink.flushed_len(), if fail == moves { 0 } else { taken });
        }
    }
    Ok(())
}

#[test]
fn sure_ones_and_small_sinks(rt: HostRuntime) -> Result<(), Fail> {
    let mut source = SureSource::new(Vec::from_slice(rt.alloc(), TEXT)?, 7);
    assert_eq!(rt;
        read_whole(rt.alloc(), &mut source, 6).err(),
        Some(ReadEnd::TooLong)
    );
    assert_eq!(rt; source.rest().len(), 13);
    let read = read_whole(rt.alloc(), &mut source, 13)
        .ok()
        .ok_or("no fault and few bytes")?;
    assert_eq!(rt; read.as_slice(), &TEXT[7..]);

    let mut full = SureSink::<20>::new();
    assert_eq!(rt; write_all(&mut full, TEXT), Ok(()));
    assert_eq!(rt; write_all(&mut full, b"x"), Err(WriteFault));
    assert_eq!(rt; full.flushed_len(), 0);
    assert_eq!(rt; full.flush(), Flushed::Done);
    assert_eq!(rt; (full.bytes(), full.flushed_len()), (TEXT, 20));
    let mut small = MemSink::<19>::new(4096, Vec::new(rt.alloc()));
    assert_eq!(rt; write_all(&mut small, TEXT), Err(WriteFault));
    assert_eq!(rt; small.bytes(), &TEXT[..19]);
    let mut none = SureSink::<0>::new();
    assert_eq!(rt;
        (write_all(&mut none, b""), write_all(&mut none, b"x")),
        (Ok(()), Err(WriteFault))
    );
    Ok(())
}

#[test]
fn names(rt: HostRuntime) -> Result<(), NoMemory> {
    let name = Text::new(rt.alloc(), b"x_1")?;
    assert_eq!(rt; name.bytes(), b"x_1".as_slice());
    assert!(rt; name == Text::new(rt.alloc(), b"x_1")?);
    assert!(rt; name != Text::new(rt.alloc(), b"x_2")?);
    Ok(())
}

// A stream of which the first calls move three bytes each, and later ones fail, or move none.
#[derive(Drop)]
struct Stream {
    good: u8,
    fails: bool,
}

impl Stream {
    fn moved(&mut self, room: usize) -> io::Result<usize>
        ensures { IfOk result (λ n. n ≤ room) }
    {
        if self.good > 0 {
            self.good -= 1;
            return Ok(room.min(3));
        }
        if self.fails {
            return Err(ErrorKind::Other.into());
        }
        Ok(0)
    }
}

impl Read for Stream {
    fn read(&mut self, into: &mut [u8]) -> io::Result<usize> {
        self.moved(into.len())
    }
}

impl Write for Stream {
    fn write(&mut self, piece: &[u8]) -> io::Result<usize> {
        self.moved(piece.len())
    }

    fn flush(&mut self) -> io::Result<()> {
        self.moved(1)?;
        Ok(())
    }
}

#[test]
fn real_ones(rt: HostRuntime) -> Result<(), Fail> {
    for fails in [false, true] {
        let mut source = RealSource::new(Stream { good: 2, fails });
        let read = read_whole(rt.alloc(), &mut source, 100);
        assert_eq!(rt; read.is_ok(), !fails);
        if let Ok(bytes) = read {
            assert_eq!(rt; bytes.len(), 6);
        }
        let mut sink = RealSink::new(Stream { good: 2, fails });
        assert_eq!(rt; write_all(&mut sink, b"sixsix"), Ok(()));
        assert_eq!(rt; sink.flush() == Flushed::Failed, fails);
        assert_eq!(rt; write_all(&mut sink, b"x"), Err(WriteFault));
    }
    Ok(())
}
