// How full the member's process is.
ghost use Rattle.std.specs.Prelude.{◌≡◌, ◌↔◌, ◌<◌, IfSome, IsSome, length};
ghost use Rattle.group_run.specs.Applying.{replica_of};
ghost use Rattle.group_run.specs.Replica.{last_of};

use crate::gateway::MemberGateway;
use group_types::Partition;

/// What a process keeps of a partition.
#[derive(Clone, Copy)]
pub struct Usage {
    /// How many items are settled, those among them that have expired.
    pub items: usize,
    /// How many updates aren't settled, or not applied.
    pub unfinished: usize,
    /// How many bytes the longest value has that there is space for.
    pub longest: u32,
    /// The number of the last update, applied or not.
    pub last: u64,
}

impl MemberGateway {
    /// What its process keeps of a partition, if that is one of the group.
    pub fn usage(&self, partition: Partition) -> Option<Usage>
        ensures some { IsSome result ↔ (partition.0 < self.now.member.words.shape.k) }
        ensures items { IfSome result (λ usage. usage.items
            ≡ length (replica_of self.now.member.node.process partition.0).items) }
        ensures unfinished { IfSome result (λ usage. usage.unfinished
            ≡ length (replica_of self.now.member.node.process partition.0).log) }
        ensures last { IfSome result (λ usage. usage.last
            ≡ last_of (replica_of self.now.member.node.process partition.0)) }
    {
        if self.work.shape().k() <= partition.0 {
            return None;
        }
        let replica = self.work.member.replica(partition);
        Some(Usage {
            items: replica.item_count(),
            unfinished: replica.waiting_count(),
            longest: replica.longest(),
            last: replica.last(),
        })
    }
}
