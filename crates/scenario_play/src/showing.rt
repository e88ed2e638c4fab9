ghost use Rattle.std.specs.Prelude.{◌≡◌, ◌+◌, ◌≤◌, IfOk};
ghost use Rattle.group_types.specs.Dimensions.{space_of};
ghost use Rattle.group_types.specs.Names.{IsProcess};
ghost use Rattle.group_run.specs.Shown.{held};
ghost use Rattle.scenario_run.specs.Playing.{look};

use group_core::World;
use group_types::{ProcessId, Run};
use scenario_text::write_shown::write_shown;
use std::alloc::{AllocError, Global};

/// The bytes of a run of a process's space, with its stamp; or that the group is down, or the process lost.
pub fn write_look(
    alloc: Global,
    world: &World,
    at: ProcessId,
    run: Run,
) -> Result<Vec<u8>, AllocError>
    requires process { IsProcess world.now.shape at }
    requires run { run.at + run.len ≤ space_of world.now.shape }
    ensures { IfOk result (λ text. text.items ≡ look world.now at (held world.now at run)) }
{
    if world.is_down() {
        return Vec::from_slice(alloc, b"down");
    }
    if world.is_dead(at) {
        return Vec::from_slice(alloc, b"lost");
    }
    let stamp = world.stamp(at)?;
    let bytes = world.bytes(at, run)?;
    write_shown(alloc, &stamp, bytes.bytes())
}
