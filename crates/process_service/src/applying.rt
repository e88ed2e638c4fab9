ghost use Rattle.std.specs.Prelude.{◌≡◌, ◌<◌, [], length, vec_capacity, IfOk};
ghost use Rattle.group_types.specs.Lists.{at};
ghost use Rattle.group_run.specs.Applying.{apply_to};
ghost use Rattle.group_run.specs.Replica.{empty_replica, up_to};
ghost use Rattle.head_service.specs.Serving.{serving};
ghost use Rattle.head_service.specs.Settling.{IsRoomFor};
ghost use Rattle.process_service.specs.Standing.{IsBeneath, StaysOver};

use crate::service::Service;
use follower_service::apply::apply;
use group_types::Partition;
use head_service::settle::room;
use head_service::{Beneath, Settlement};
use std::alloc::AllocError;

impl Service {
    /// Room for what is applied of a partition up to a number.
    pub fn room(&self, partition: Partition, number: u64) -> Result<Vec<Settlement>, AllocError>
        requires { partition.0 < self.now.shape.k }
        ensures empty { IfOk result (λ room. room.items ≡ []) }
        ensures fits { IfOk result (λ room. vec_capacity room
            ≡ length (up_to number (at empty_replica self.now.replicas partition.0))) }
    {
        room(self.alloc, number, &self.replicas[partition.0 as usize])
    }

    /// A partition is applied up to a number. It takes no memory.
    pub fn apply<B: Beneath>(
        &mut self,
        partition: Partition,
        number: u64,
        room: Vec<Settlement>,
        below: &mut B,
    )
        requires partition { partition.0 < self.old.shape.k }
        requires room { IsRoomFor (length (up_to number (at empty_replica self.old.replicas partition.0))) room.items
            (vec_capacity room) }
        requires beneath { IsBeneath self.old (B.storage below.old) }
        ensures stays { StaysOver self.old self.new (B.storage below.old) (B.storage below.new) }
        ensures known { self.new.known ≡ self.old.known }
        ensures heads { self.new.heads ≡ self.old.heads }
        ensures process { serving self.new (B.storage below.new).process
            ≡ apply_to self.old.shape partition.0 number (serving self.old (B.storage below.old).process) }
    {
        let replica = &mut self.replicas[partition.0 as usize];
        apply(partition, number, room, replica, below);
    }
}
