//! Names declared and found.

use crate::NameTable;
use int_interval::Interval;
use mission_items::Decl;
use std::test::Fail;
use tube_store::{SignalId, VarId};

fn signal(range: Interval) -> Decl {
    Decl::Signal {
        id: SignalId(0),
        range,
    }
}

fn variable(range: Interval) -> Decl {
    Decl::Variable {
        id: VarId(0),
        range,
    }
}

#[test]
fn finds_what_is_declared(rt: HostRuntime) -> Result<(), Fail> {
    let alloc = rt.alloc();
    let range = Interval::new(0, 9).ok_or("no interval")?;
    let mut names = NameTable::new(alloc);
    assert!(rt; names.find(b"x").is_none());
    names.declare(alloc, b"x", signal(range))?;
    assert!(rt; names.find(b"X").is_none());
    names.declare(alloc, b"X", variable(range))?;
    assert_eq!(rt; names.find(b"x"), Some(signal(range)));
    assert_eq!(rt; names.find(b"X"), Some(variable(range)));
    assert!(rt; names.find(b"xX").is_none());
    assert!(rt; names.find(b"").is_none());
    Ok(())
}
