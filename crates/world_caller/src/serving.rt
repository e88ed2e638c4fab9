ghost use Rattle.std.specs.Prelude.{◌≡◌, ◌<◌};
ghost use Rattle.group_types.specs.Names.{IsProcess};
ghost use Rattle.world_caller.specs.Calling.{Serves};

use group_core::World;
use group_types::{Partition, ProcessId};

/// The process that is asked of a partition: the living one of lowest rank or, where none lives, its data process.
pub(crate) fn server(world: &World, partition: Partition) -> ProcessId
    requires { partition.0 < world.now.shape.k }
    ensures serves { Serves world.now partition.0 result }
    ensures inside { IsProcess world.now.shape result }
{
    let data = ProcessId::DataNode(partition.0);
    if !world.is_dead(data) {
        return data;
    }
    'ranks: for i in 0..world.shape().m() {
        let parity = ProcessId::ParityNode(i);
        if !world.is_dead(parity) {
            return parity;
        }
    }
    data
}
