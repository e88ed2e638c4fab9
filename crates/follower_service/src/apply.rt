ghost use Rattle.std.specs.Prelude.{length, vec_capacity};
ghost use Rattle.group_run.specs.Replica.{up_to};
ghost use Rattle.head_service.specs.Seat.{IsWholeSeat};
ghost use Rattle.head_service.specs.Settling.{HasApplied, IsRoomFor};
ghost use Rattle.head_service.specs.Storage.{StaysReady};

use group_types::Partition;
use head_service::settle::{settle_to, tidy};
use head_service::{Beneath, Settlement};
use partition_replica::Replica;

/// Applies the partition up to a number. It takes no memory.
pub fn apply<B: Beneath>(
    partition: Partition,
    number: u64,
    room: Vec<Settlement>,
    replica: &mut Replica,
    below: &mut B,
)
    requires room { IsRoomFor (length (up_to number replica.old.replica)) room.items (vec_capacity room) }
    requires seat { IsWholeSeat partition.0 replica.old (B.storage below.old) }
    ensures seat { IsWholeSeat partition.0 replica.new (B.storage below.new) }
    ensures stays { StaysReady (B.storage below.old) (B.storage below.new) }
    ensures applied { HasApplied partition.0 number replica.old.replica replica.new.replica (B.storage below.old)
        (B.storage below.new) }
{
    let mut settled = room;
    settle_to(partition, number, replica, below, &mut settled);
    tidy(replica, &settled);
}
