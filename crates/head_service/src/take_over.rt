ghost use Rattle.std.specs.Prelude.{◌≡◌, ◌++◌, IfOk, OnOk};
ghost use Rattle.group_message.specs.declared.message.Message.TheVariants as tells;
ghost use Rattle.group_run.specs.Process.{new_head};
ghost use Rattle.group_run.specs.Replica.{last_of};
ghost use Rattle.head_service.specs.Peers.{to_all};

use crate::head::Head;
use crate::news::News;
use crate::peers::Peers;
use crate::step::Sent;
use group_types::{Partition, Rank, Shape};
use partition_replica::Replica;
use std::alloc::{AllocError, Global};

/// The new head of a partition under a rank, which inherits what waits in the log.
pub fn successor(
    alloc: Global,
    shape: Shape,
    rank: Rank,
    replica: &Replica,
) -> Result<Head, AllocError>
    ensures { IfOk result (λ head. head ≡ new_head shape rank.0 (last_of replica.now.replica)) }
{
    Head::new(alloc, shape, rank, replica.last())
}

/// Adds the messages by which a new head tells the others what it has.
pub fn adoption(
    partition: Partition,
    rank: Rank,
    peers: &Peers,
    replica: &Replica,
    sent: &mut Vec<Sent>,
) -> Result<(), AllocError>
    ensures { OnOk result (sent.new.items ≡ sent.old.items
        ++ to_all peers.now (tells.Adopt rank partition replica.now.replica.applied replica.now.replica.log)) }
{
    let news = News::TakenOver {
        base: replica.applied(),
        list: replica.waiting()?,
    };
    peers.tell(rank, partition, &news, sent)
}
