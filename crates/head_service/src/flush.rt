ghost use Rattle.std.specs.Prelude.{◌≡◌, ◌++◌, length, map, IfOk, OnOk};
ghost use Rattle.head_service.specs.Flushing.{stable_of, stables};

use crate::head::Head;
use crate::news::News;
use crate::peers::Peers;
use crate::step::Sent;
use group_types::{Partition, Shape};
use partition_replica::Replica;
use std::alloc::{AllocError, Global};

/// The messages by which a process tells how far it has settled, for each partition that it heads, in order.
pub fn flush(
    alloc: Global,
    shape: Shape,
    peers: &Peers,
    heads: &[Option<Head>],
    replicas: &[Replica],
) -> Result<Vec<Sent>, AllocError>
    requires heads { length heads.now ≡ shape.k }
    requires replicas { length replicas.now ≡ shape.k }
    ensures { IfOk result (λ sent. sent.items ≡ stables peers.now 0 heads.now (map (λ r. r.replica) replicas.now)) }
{
    let mut sent = Vec::new(alloc);
    'partitions: for d in 0..shape.k() {
        tell_settled(
            peers,
            d,
            &heads[d as usize],
            &replicas[d as usize],
            &mut sent,
        )?;
    }
    Ok(sent)
}

fn tell_settled(
    peers: &Peers,
    d: u32,
    head: &Option<Head>,
    replica: &Replica,
    sent: &mut Vec<Sent>,
) -> Result<(), AllocError>
    ensures { OnOk result (sent.new.items ≡ sent.old.items ++ stable_of peers.now d head.now replica.now.replica) }
{
    if let Some(head) = head {
        let number = replica.applied();
        peers.tell(head.rank(), Partition(d), &News::Settled { number }, sent)?;
    }
    Ok(())
}
