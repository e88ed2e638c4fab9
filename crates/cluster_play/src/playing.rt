ghost use Rattle.std.specs.Prelude.{◌≡◌, ◌+◌, ◌≤◌, ◌<◌, ◌^◌, ◌++◌, ◌∷◌, [], length, IfOk, OnOk};
ghost use Rattle.group_types.specs.Dimensions.{space_of};
ghost use Rattle.group_types.specs.Names.{IsProcess};
ghost use Rattle.group_layout.specs.Cluster.{MayHappen, cluster_after, cluster_step};
ghost use Rattle.group_layout.specs.declared.event.ClusterEvent.TheVariants.{FailNode, InGroup};
ghost use Rattle.group_run.specs.Shown.{held};
ghost use Rattle.scenario_run.specs.Playing.{look};
ghost use Rattle.cluster_run.specs.Playing.{all_deliveries, cluster_turn, cluster_turns_from, drained_text, group_world, opening_of, turn_text};
ghost use Rattle.cluster_play.specs.Doing.{IsReadyCluster};

use crate::deliveries::drain;
use crate::making::make_event;
use crate::writing::{answer_line, write_mark};
use group_calls::Event;
use group_cluster::{Cluster, Layout};
use group_layout::ClusterEvent;
use group_types::{ProcessId, Run, Shape};
use memc_table::{Act, Op};
use scenario_play::entries::{write_count, write_last};
use scenario_play::showing::write_look;
use std::alloc::{AllocError, Global};
use std::marker::Model;

/// The groups of a script on their nodes, and the moment of the asks that follow.
#[derive(Drop)]
pub(crate) struct ClusterPlay {
    pub(crate) cluster: Cluster,
    pub(crate) moment: u64,
}

impl Model for ClusterPlay {
    ghost use Rattle.std.specs.Prelude.{◌≤◌, ◌^◌};
    ghost use Rattle.cluster_run.specs.Playing as script;

    ghost Value = { script.ClusterPlay };

    ghost view = { λ p. record { cluster = p.cluster; moment = p.moment } };

    ghost invariant = { λ p. p.moment ≤ 2 ^ 62 };
}

impl ClusterPlay {
    /// Groups at their start.
    pub(crate) fn new(alloc: Global, layout: Layout) -> Result<ClusterPlay, AllocError>
        ensures { IfOk result (λ play. play ≡ record { cluster = opening_of layout; moment = 0 }) }
    {
        Ok(ClusterPlay {
            cluster: Cluster::new(alloc, layout)?,
            moment: 0,
        })
    }

    /// The op of an act at this moment.
    pub(crate) fn op(&self, act: Act) -> Op
        ensures { result ≡ record { moment = self.now.moment; act = act } }
    {
        Op::new(self.moment, act)
    }

    /// The shape of each group.
    pub(crate) fn shape(&self) -> Shape
        requires ready { IsReadyCluster (2 ^ 59) self.now.cluster }
        ensures { result ≡ self.now.cluster.groups.shape }
    {
        self.cluster.world(0).shape()
    }

    /// Sets the moment of the asks that follow.
    pub(crate) fn set_moment(&mut self, moment: u64)
        requires { moment ≤ 2 ^ 62 }
        ensures { self.new ≡ record { cluster = self.old.cluster; moment = moment } }
    {
        self.moment = moment;
    }

    /// An event of a group is made: its answer on a line, and what it logged.
    pub(crate) fn make(
        &mut self,
        alloc: Global,
        group: u32,
        event: Event,
    ) -> Result<Vec<u8>, AllocError>
        requires may { MayHappen self.old.cluster (InGroup group event) }
        requires ready { IsReadyCluster (2 ^ 59) self.old.cluster }
        ensures play { OnOk result (self.new ≡ record {
          cluster =
              (cluster_step self.old.cluster (InGroup group event)).cluster;
          moment = self.old.moment;
        }) }
        ensures text { IfOk result (λ text. text.items ≡ turn_text (cluster_turn self.old.cluster (InGroup group event))) }
    {
        let out = make_event(&mut self.cluster, ClusterEvent::InGroup { group, event })?;
        let logged = out.logged;
        let mut text = answer_line(alloc, out)?;
        let mark = write_mark(alloc, group)?;
        let log = self.cluster.world(group).log();
        write_last(alloc, &mark, log, logged, &mut text)?;
        Ok(text)
    }

    /// The processes of a node fail, and nothing is logged.
    pub(crate) fn fail(
        &mut self,
        alloc: Global,
        node: u32,
        keep: u32,
    ) -> Result<Vec<u8>, AllocError>
        requires may { MayHappen self.old.cluster (FailNode node keep) }
        requires ready { IsReadyCluster (2 ^ 59) self.old.cluster }
        ensures play { OnOk result (self.new ≡ record {
          cluster =
              (cluster_step self.old.cluster (FailNode node keep)).cluster;
          moment = self.old.moment;
        }) }
        ensures text { IfOk result (λ text. text.items ≡ turn_text (cluster_turn self.old.cluster (FailNode node keep))) }
    {
        let out = make_event(&mut self.cluster, ClusterEvent::FailNode { node, keep })?;
        answer_line(alloc, out)
    }

    /// Messages are delivered in one group after the other, until none is left: what that logged, and how many there were.
    pub(crate) fn drain(&mut self, alloc: Global) -> Result<Vec<u8>, AllocError>
        requires ready { IsReadyCluster (2 ^ 59) self.old.cluster }
        ensures play { OnOk result (self.new ≡ record {
          cluster = cluster_after self.old.cluster
              (all_deliveries self.old.cluster);
          moment = self.old.moment;
        }) }
        ensures text { IfOk result (λ text. text.items
            ≡ drained_text (cluster_turns_from self.old.cluster (all_deliveries self.old.cluster))) }
    {
        let mut text = Vec::new(alloc);
        let count = drain(alloc, &mut self.cluster, &mut text)?;
        write_count(alloc, count, &mut text)?;
        Ok(text)
    }

    /// The bytes of a run of a group's process, with its stamp.
    pub(crate) fn show(
        &self,
        alloc: Global,
        group: u32,
        at: ProcessId,
        run: Run,
    ) -> Result<Vec<u8>, AllocError>
        requires group { group < length self.now.cluster.groups.worlds }
        requires process { IsProcess (group_world self.now group).shape at }
        requires run { run.at + run.len ≤ space_of (group_world self.now group).shape }
        ensures { IfOk result (λ text. text.items
            ≡ look (group_world self.now group) at (held (group_world self.now group) at run) ++ 10 ∷ []) }
    {
        let mut text = write_look(alloc, self.cluster.world(group), at, run)?;
        text.push(b'\n')?;
        Ok(text)
    }
}
