//! Queries with what was found of them.

ghost use Rattle.std.specs.Prelude.{◌≤◌, IfOk, IfSome, length};
ghost use Rattle.bundle_text.specs.Bundles.{AreTracedSets, IsTracedQuery, query_text};
ghost use Rattle.bundle_reader.specs.Fronts.{Anything, ReadsFront};
ghost use Rattle.bundle_reader.specs.Sets.{AfterSet, told_sets};

use crate::many::Told;
use crate::sets::sets_of;
use crate::words::{after, number_after};
use bundle_text::{Listed, TracedQuery, TracedSet};
use std::alloc::Global;
use tube_io::NoMemory;

// The sets of a query, or nothing where it is crowded: what follows its number.
fn told_of(
    alloc: Global,
    bytes: &[u8],
) -> Result<Option<(Option<Listed<TracedSet>>, &[u8])>, NoMemory>
    requires { length bytes.now ≤ 1000000000 }
    ensures { IfOk result (ReadsFront told_sets (λ sets. IfSome sets AreTracedSets) AfterSet bytes.now) }
{
    if let Some(rest) = after(bytes, b"crowded\n") {
        return Ok(Some((None, rest)));
    }
    let Some((count, rest)) = number_after(bytes, b"sets ", b'\n') else {
        return Ok(None);
    };
    let Some((sets, rest)) = sets_of(alloc, rest, count)? else {
        return Ok(None);
    };
    Ok(Some((Some(sets), rest)))
}

fn query_of(alloc: Global, bytes: &[u8]) -> Result<Option<(TracedQuery, &[u8])>, NoMemory>
    requires { length bytes.now ≤ 1000000000 }
    ensures { IfOk result (ReadsFront query_text IsTracedQuery Anything bytes.now) }
{
    let Some((number, rest)) = number_after(bytes, b"loops ", b' ') else {
        return Ok(None);
    };
    let Some((sets, rest)) = told_of(alloc, rest)? else {
        return Ok(None);
    };
    let Some((done, rest)) = number_after(rest, b"done ", b'\n') else {
        return Ok(None);
    };
    if done != number {
        return Ok(None);
    }
    Ok(Some((TracedQuery { number, sets }, rest)))
}

impl Told for TracedQuery {
    ghost use Rattle.bundle_reader.specs.Bytes.{query_some};

    ghost text = { query_text };

    ghost IsTold = { IsTracedQuery };

    ghost some = { query_some };

    fn read(alloc: Global, bytes: &[u8]) -> Result<Option<(TracedQuery, &[u8])>, NoMemory> {
        query_of(alloc, bytes)
    }
}
