ghost use Rattle.std.specs.Prelude.{◌≡◌, [], IfOk, OnOk};
ghost use Rattle.std.specs.List.{range_with_len};
ghost use Rattle.scenario_run.specs.Placing.{placed_text, many_runs, runs_text};

use group_core::World;
use group_types::Partition;
use scenario_text::write_places::write_places;
use std::alloc::{AllocError, Global};

/// Writes the runs of the updates that a group has logged, by partition and number, and how many there are.
pub(crate) fn write_placed(alloc: Global, world: &World) -> Result<Vec<u8>, AllocError>
    ensures { IfOk result (λ text. text.items ≡ placed_text [] world.now) }
{
    let mut text = Vec::new(alloc);
    let count = write_runs(alloc, world, &mut text)?;
    text.extend_from_slice(format!(in alloc; "placed {count}\n")?.as_bytes())?;
    Ok(text)
}

/// Writes the runs of each partition's updates, and gives their number.
fn write_runs(alloc: Global, world: &World, text: &mut Vec<u8>) -> Result<u64, AllocError>
    requires { text.old.items ≡ [] }
    ensures text { OnOk result (text.new.items ≡ runs_text [] world.now (range_with_len 0 world.now.shape.k)) }
    ensures count { IfOk result (λ count. count ≡ many_runs world.now (range_with_len 0 world.now.shape.k)) }
{
    let mut count: u64 = 0;
    'partitions: for d in 0..world.shape().k() {
        count += write_places(alloc, Partition(d), 0, world.places(Partition(d)), text)?;
    }
    Ok(count)
}
