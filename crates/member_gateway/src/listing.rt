// What the member's process has of a partition, to be carried into another group.
ghost use Rattle.std.specs.Prelude.{◌≡◌, ◌↔◌, ◌<◌, IfOk, IfSome, IsSome};
ghost use Rattle.group_run.specs.Applying.{replica_of};

use crate::gateway::MemberGateway;
use group_types::{Key, Partition};
use item_index::Slot;
use std::alloc::AllocError;

impl MemberGateway {
    /// A copy of the settled items of a partition as its process has them, each key with its slot, in the order of the keys, if
    /// the partition is one of the group.
    pub fn items(&self, partition: Partition) -> Result<Option<Vec<(Key, Slot)>>, AllocError>
        ensures some { IfOk result (λ found. IsSome found ↔ (partition.0 < self.now.member.words.shape.k)) }
        ensures items { IfOk result (λ found. IfSome found (λ list. list.items
            ≡ (replica_of self.now.member.node.process partition.0).items)) }
    {
        if self.work.shape().k() <= partition.0 {
            return Ok(None);
        }
        Ok(Some(self.work.member.replica(partition).items()?))
    }

    /// Whether its process heads a partition, as far as the member has taken deaths.
    pub fn is_head(&self, partition: Partition) -> bool {
        self.work.head_of(partition) == Some(self.work.name)
    }
}
