ghost use Rattle.std.specs.Prelude.{◌≡◌, ℕ, ◌≤◌, List, Some, OnOk, IfOk, length, take, drop};
ghost use Rattle.tube_spec.specs.Span.{Span};
ghost use Rattle.tube_spec.specs.Box.{IsBelow, IsBelowBox};
ghost use Rattle.tube_spec.specs.Fixpoint.{IsFixpoint};
ghost use Rattle.tube_spec.specs.Assignment.{Assignment};
ghost use Rattle.tube_spec.specs.Owner.{hull_box};
ghost use Rattle.mission_items.specs.Valid.{IsMission};
ghost use Rattle.mission_net.specs.Records.{owners, owners_from, contracts_from, projections, start, SatisfiesAll};
ghost use Rattle.mission_net.specs.Tables.{IsTableOf};
ghost use Rattle.mission_net.specs.Building.{IsNetOf, IsAdded};

use crate::AnyCtc;
use crate::made::Made;
use crate::records::add_item;
use ctc_network::Net;
use mission_items::Mission;
use std::alloc::Global;
use tube_io::NoMemory;

/// Adds the cells and contractors of the records from item `first` on, below item `last`, in order, and takes the records into the table.
///
/// The table is that of the records before. It is [`build`] without one to be made again for each part of a mission.
pub fn build_on(
    mission: &Mission,
    first: usize,
    last: usize,
    table: &mut Made,
    net: &mut Net<AnyCtc>,
) -> Result<(), NoMemory>
    requires order { first ≤ last }
    requires within { last ≤ length mission.now.items }
    requires mission { IsMission mission.now }
    requires table { IsTableOf table.old (take first mission.now.items) }
    requires holds { IsNetOf mission.now.cuts (take first mission.now.items) net.old }
    ensures table { OnOk result (IsTableOf table.new (take last mission.now.items)) }
    ensures holds { OnOk result (IsNetOf mission.now.cuts (take last mission.now.items) net.new) }
    ensures added { OnOk result (IsAdded (owners_from (take first mission.now.items) (drop first (take last mission.now.items))) (contracts_from mission.now.cuts (take first mission.now.items) (drop first (take last mission.now.items))) net.old net.new) }
{
    let items = mission.items.as_slice();
    for i in first..last {
        add_item(net, table, &items[..i], &items[i])?;
    }
    Ok(())
}

/// The table of the first records.
fn table_of(alloc: Global, mission: &Mission, first: usize) -> Result<Made, NoMemory>
    requires within { first ≤ length mission.now.items }
    requires mission { IsMission mission.now }
    ensures { IfOk result (λ table. IsTableOf table (take first mission.now.items)) }
{
    let mut table = Made::new(alloc);
    let items = mission.items.as_slice();
    for i in 0..first {
        table.add(&items[..i], &items[i])?;
    }
    Ok(table)
}

/// Adds the cells and contractors of the records from item `first` on, below item `last`, in order.
///
/// The mission is one that the reader of logs gives, and the net holds exactly what the items below `first` make. Cells, read entries
/// and numbers of contractors never run out: the reader judged them. After want of memory the net holds what a prefix of the items
/// makes, and perhaps a part of one, and it is not built on.
pub fn build(
    alloc: Global,
    mission: &Mission,
    first: usize,
    last: usize,
    net: &mut Net<AnyCtc>,
) -> Result<(), NoMemory>
    requires order { first ≤ last }
    requires within { last ≤ length mission.now.items }
    requires mission { IsMission mission.now }
    requires holds { IsNetOf mission.now.cuts (take first mission.now.items) net.old }

    // The net has exactly the cells and contractors of the records so far. Old cells are as they were and new ones at their declared
    // ranges; the new contractors wait, and of the old ones those that waited.
    ensures holds { OnOk result (IsNetOf mission.now.cuts (take last mission.now.items) net.new) }
    ensures added { OnOk result (IsAdded (owners_from (take first mission.now.items) (drop first (take last mission.now.items))) (contracts_from mission.now.cuts (take first mission.now.items) (drop first (take last mission.now.items))) net.old net.new) }

    // Each assignment that satisfies the records so far and lay in the box before lies in it. Its hull is a fixpoint of them, below the
    // declared ranges.
    ensures encloses { OnOk result ((a : Assignment) → SatisfiesAll mission.now.cuts a (take last mission.now.items)
        → IsBelowBox (Some (hull_box mission.now.cuts (owners (take first mission.now.items)) a)) net.old.store.box
        → IsBelowBox (Some (hull_box mission.now.cuts (owners (take last mission.now.items)) a)) net.new.store.box) }
    ensures stable { (a : Assignment) → SatisfiesAll mission.now.cuts a (take last mission.now.items)
        → IsFixpoint (projections mission.now.cuts (take last mission.now.items)) (hull_box mission.now.cuts (owners (take last mission.now.items)) a)
        × IsBelow (hull_box mission.now.cuts (owners (take last mission.now.items)) a) (start mission.now.cuts (take last mission.now.items)) }
{
    let mut table = table_of(alloc, mission, first)?;
    build_on(mission, first, last, &mut table, net)
}
