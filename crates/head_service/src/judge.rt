ghost use Rattle.std.specs.Prelude.{◌≡◌, ◌+◌, ◌<◌, ◌≤◌, [], length, vec_len, vec_capacity, IfOk, OnErr, OnOk};
ghost use Rattle.group_run.specs.Heading.{acknowledged};
ghost use Rattle.group_run.specs.Replica.{last_of, up_to};
ghost use Rattle.head_service.specs.Peers.{settles};
ghost use Rattle.head_service.specs.Seat.{ChangesOnlyRoom, IsHeadSeat, IsWholeSeat};
ghost use Rattle.head_service.specs.Settling.{HasSettled};
ghost use Rattle.head_service.specs.Storage.{StaysReady};

use crate::beneath::Beneath;
use crate::head::Head;
use crate::peers::Peers;
use crate::settle::{room, settle_to, tidy};
use crate::step::Settlement;
use group_types::Partition;
use partition_replica::Replica;
use std::alloc::{AllocError, Global};

/// The head of a partition settles what all its peers acknowledged, and adds it to the list. It takes no
/// memory.
pub fn judge<B: Beneath>(
    partition: Partition,
    head: &Head,
    peers: &Peers,
    replica: &mut Replica,
    below: &mut B,
    settled: &mut Vec<Settlement>,
)
    requires seat { IsHeadSeat partition.0 peers.now head.now replica.old (B.storage below.old) }
    requires room { vec_len settled.old + length (up_to (settles peers.now head.now (last_of replica.old.replica))
        replica.old.replica) ≤ vec_capacity settled.old }
    ensures seat { IsWholeSeat partition.0 replica.new (B.storage below.new) }
    ensures stays { StaysReady (B.storage below.old) (B.storage below.new) }
    ensures settled { HasSettled partition.0 (settles peers.now head.now (last_of replica.old.replica))
        replica.old.replica replica.new.replica (B.storage below.old) (B.storage below.new)
        settled.old.items settled.new.items }
    ensures capacity { vec_capacity settled.old ≤ vec_capacity settled.new }
{
    let number = peers.least_acked(head, replica.last());
    let before = settled.len();
    settle_to(partition, number, replica, below, settled);
    tidy(replica, &settled[before..]);
}

/// The head of a partition notes that a parity process acknowledged a number, and settles what it may. After
/// want of memory nothing but room has changed.
pub fn acknowledge<B: Beneath>(
    alloc: Global,
    partition: Partition,
    parity: u32,
    number: u64,
    head: &mut Head,
    peers: &Peers,
    replica: &mut Replica,
    below: &mut B,
) -> Result<Vec<Settlement>, AllocError>
    requires parity { parity < peers.now.m }
    requires seat { IsHeadSeat partition.0 peers.now head.old replica.old (B.storage below.old) }
    ensures seat { IsHeadSeat partition.0 peers.now head.new replica.new (B.storage below.new) }
    ensures stays { StaysReady (B.storage below.old) (B.storage below.new) }
    ensures head { OnOk result (head.new ≡ acknowledged parity number head.old) }
    ensures settled { IfOk result (λ settled. HasSettled partition.0
        (settles peers.now (acknowledged parity number head.old) (last_of replica.old.replica)) replica.old.replica
        replica.new.replica (B.storage below.old) (B.storage below.new) [] settled.items) }
    ensures err { OnErr result ((head.new ≡ head.old)
        × ChangesOnlyRoom replica.old replica.new (B.storage below.old) (B.storage below.new)) }
{
    let before = head.acked(parity);
    head.acknowledge(parity, number);
    let reached = peers.least_acked(head, replica.last());
    match room(alloc, reached, replica) {
        Ok(mut settled) => {
            judge(partition, head, peers, replica, below, &mut settled);
            Ok(settled)
        }
        Err(AllocError) => {
            head.restore(parity, before);
            Err(AllocError)
        }
    }
}
