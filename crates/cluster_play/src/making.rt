ghost use Rattle.std.specs.Prelude.{◌≡◌, IfOk, OnOk};
ghost use Rattle.group_layout.specs.Cluster.{MayHappen, cluster_step};
ghost use Rattle.group_cluster.specs.History.{HaveFewEvents, logged_by};

use group_cluster::Cluster;
use group_layout::{ClusterEvent, ClusterOut};
use std::alloc::AllocError;

/// Makes an event.
pub(crate) fn make_event(
    cluster: &mut Cluster,
    event: ClusterEvent,
) -> Result<ClusterOut, AllocError>
    requires few { HaveFewEvents cluster.old event }
    requires may { MayHappen cluster.old event }
    ensures cluster { OnOk result (cluster.new ≡ (cluster_step cluster.old event).cluster) }
    ensures answer { IfOk result (λ out. out.answer ≡ (cluster_step cluster.old event).answer) }
    ensures logged { IfOk result (λ out. out.logged ≡ logged_by (cluster_step cluster.old event)) }
{
    let out = cluster.step(&event);
    drop(event);
    out
}
