ghost use Rattle.std.specs.Prelude.{◌≡◌, ◌++◌, ◌+◌, ◌<◌, ◌≤◌, [], length, IfOk, OnOk};
ghost use Rattle.std.specs.List.{range_with_len};
ghost use Rattle.group_types.specs.Lists.{at};
ghost use Rattle.scenario_text.specs.Texts.{many_placed, places_text};
ghost use Rattle.scenario_run.specs.Placing.{many_runs, placed_text, runs_text};

use crate::showing::with_base;
use group_regroup::Regroup;
use group_types::Partition;
use scenario_text::write_places::write_places;
use std::alloc::{AllocError, Global};

/// Writes the runs of the updates that the current era has logged, by partition and number, and how many there are.
pub(crate) fn write_placed(alloc: Global, regroup: &Regroup) -> Result<Vec<u8>, AllocError>
    ensures { IfOk result (λ text. text.items ≡ placed_text regroup.now.bases regroup.now.world) }
{
    let mut text = Vec::new(alloc);
    let count = write_runs(alloc, regroup, &mut text)?;
    text.extend_from_slice(format!(in alloc; "placed {count}\n")?.as_bytes())?;
    Ok(text)
}

/// Writes the runs of each partition's updates, and gives their number.
fn write_runs(alloc: Global, regroup: &Regroup, text: &mut Vec<u8>) -> Result<u64, AllocError>
    requires { text.old.items ≡ [] }
    ensures text { OnOk result (text.new.items ≡ runs_text regroup.now.bases regroup.now.world
        (range_with_len 0 regroup.now.world.shape.k)) }
    ensures count { IfOk result (λ count. count
        ≡ many_runs regroup.now.world (range_with_len 0 regroup.now.world.shape.k)) }
{
    let mut count: u64 = 0;
    'partitions: for d in 0..regroup.world().shape().k() {
        count += write_partition(alloc, regroup, d, text)?;
    }
    Ok(count)
}

/// Writes the runs of a partition's updates.
fn write_partition(
    alloc: Global,
    regroup: &Regroup,
    partition: u32,
    text: &mut Vec<u8>,
) -> Result<u64, AllocError>
    requires { partition < regroup.now.world.shape.k }
    ensures text { OnOk result (text.new.items ≡ text.old.items
        ++ places_text partition (at 0 regroup.now.bases partition) (at [] regroup.now.world.places partition)) }
    ensures count { IfOk result (λ count. count ≡ many_placed (at [] regroup.now.world.places partition)) }
    ensures lines { IfOk result (λ count. length text.old.items + count ≤ length text.new.items) }
{
    let runs = regroup.world().places(Partition(partition));
    with_base(regroup, partition, runs.len() as u64)?;
    write_places(
        alloc,
        Partition(partition),
        regroup.base(Partition(partition)),
        runs,
        text,
    )
}
