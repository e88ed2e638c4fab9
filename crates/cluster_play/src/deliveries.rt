ghost use Rattle.std.specs.Prelude.{◌≡◌, ◌++◌, ◌^◌, ◌+◌, ◌<◌, ◌≤◌, length, map, IfOk, OnOk};
ghost use Rattle.group_calls.specs.declared.event.Event.TheVariants.{Deliver};
ghost use Rattle.group_run.specs.Meaning.{IsDown};
ghost use Rattle.group_layout.specs.Cluster.{MayHappen, cluster_after, cluster_step, logged_in, world_in};
ghost use Rattle.group_layout.specs.declared.event.ClusterEvent.TheVariants.{InGroup};
ghost use Rattle.cluster_run.specs.Playing.{all_deliveries, cluster_log_of, cluster_turns_from, deliveries_in};
ghost use Rattle.cluster_run.specs.Texts.{cluster_entries_text, group_mark};
ghost use Rattle.group_cluster.specs.History.{HasFewEvents};
ghost use Rattle.cluster_play.specs.Doing.{IsReadyCluster};

use crate::making::make_event;
use crate::writing::{logged_by, write_mark};
use group_calls::Event;
use group_cluster::Cluster;
use group_layout::ClusterEvent;
use group_types::ProcessId;
use scenario_play::entries::write_last;
use std::alloc::{AllocError, Global};

/// Makes the deliveries of a drain, in one group after the other, writes what they log, and gives their number.
pub(crate) fn drain(
    alloc: Global,
    cluster: &mut Cluster,
    text: &mut Vec<u8>,
) -> Result<u64, AllocError>
    requires ready { IsReadyCluster (2 ^ 59) cluster.old }
    ensures cluster { OnOk result (cluster.new ≡ cluster_after cluster.old (all_deliveries cluster.old)) }
    ensures text { OnOk result (text.new.items ≡ text.old.items
        ++ cluster_entries_text (cluster_log_of (cluster_turns_from cluster.old (all_deliveries cluster.old)))) }
    ensures count { IfOk result (λ count. count ≡ length (all_deliveries cluster.old)) }
{
    let mut count: u64 = 0;
    'groups: for group in 0..cluster.groups() {
        count += drain_group(alloc, cluster, group, text)?;
    }
    Ok(count)
}

/// Makes the deliveries of one group: none while it is down.
fn drain_group(
    alloc: Global,
    cluster: &mut Cluster,
    group: u32,
    text: &mut Vec<u8>,
) -> Result<u64, AllocError>
    requires group { group < length cluster.old.groups.worlds }
    requires ready { IsReadyCluster (2 ^ 59) cluster.old }
    ensures cluster { OnOk result (cluster.new ≡ cluster_after cluster.old (deliveries_in cluster.old group)) }
    ensures text { OnOk result (text.new.items ≡ text.old.items
        ++ cluster_entries_text (cluster_log_of (cluster_turns_from cluster.old (deliveries_in cluster.old group)))) }
    ensures count { IfOk result (λ count. count ≡ length (deliveries_in cluster.old group)) }
{
    if cluster.world(group).is_down() {
        return Ok(0);
    }
    deliver_all(alloc, cluster, group, text)
}

/// Delivers a group's messages until none is left.
fn deliver_all(
    alloc: Global,
    cluster: &mut Cluster,
    group: u32,
    text: &mut Vec<u8>,
) -> Result<u64, AllocError>
    requires group { group < length cluster.old.groups.worlds }
    requires up { ¬ (IsDown (world_in cluster.old.groups group)) }
    requires ready { IsReadyCluster (2 ^ 59) cluster.old }
    ensures cluster { OnOk result (cluster.new ≡ cluster_after cluster.old (deliveries_in cluster.old group)) }
    ensures text { OnOk result (text.new.items ≡ text.old.items
        ++ cluster_entries_text (cluster_log_of (cluster_turns_from cluster.old (deliveries_in cluster.old group)))) }
    ensures count { IfOk result (λ count. count ≡ length (deliveries_in cluster.old group)) }
{
    let mark = write_mark(alloc, group)?;
    let mut count: u64 = 0;
    'deliveries: while let Some((from, to)) = cluster.world(group).next_link() {
        deliver(alloc, cluster, group, from, to, &mark, text)?;
        count += 1;
    }
    Ok(count)
}

/// Delivers the first message of a group's link, and writes what that logs.
fn deliver(
    alloc: Global,
    cluster: &mut Cluster,
    group: u32,
    from: ProcessId,
    to: ProcessId,
    mark: &[u8],
    text: &mut Vec<u8>,
) -> Result<(), AllocError>
    requires may { MayHappen cluster.old (InGroup group (Deliver from to)) }
    requires few { HasFewEvents cluster.old.groups group }
    requires mark { mark.now ≡ group_mark group }
    ensures cluster { OnOk result (cluster.new ≡ (cluster_step cluster.old (InGroup group (Deliver from to))).cluster) }
    ensures text { OnOk result (text.new.items ≡ text.old.items
        ++ cluster_entries_text (logged_in (cluster_step cluster.old (InGroup group (Deliver from to))).turns)) }
{
    let event = Event::Deliver { from, to };
    let out = make_event(cluster, ClusterEvent::InGroup { group, event })?;
    let logged = logged_by(out);
    write_last(alloc, mark, cluster.world(group).log(), logged, text)
}
