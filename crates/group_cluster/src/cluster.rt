ghost use Rattle.std.specs.Prelude.{◌≡◌, IfOk, OnErr};
ghost use Rattle.group_layout.specs.Cluster.{MayHappen, cluster_step, opening_cluster};
ghost use Rattle.group_layout.specs.declared.event.ClusterEvent.TheVariants.{FailNode, InGroup};
ghost use Rattle.group_cluster.specs.History.{HasFewEvents, HaveFewEvents, IsCutShort, logged_by};

use crate::groups::ClusterEntries;
use crate::layout::Layout;
use group_calls::Event;
use group_layout::layout::group_of;
use group_layout::{ClusterAnswer, ClusterEvent, ClusterOut};
use std::alloc::{AllocError, Global};
use std::marker::Model;

/// Several groups on nodes, of which some have failed.
#[derive(Drop)]
pub struct Cluster {
    pub(crate) groups: ClusterEntries,
    pub(crate) failed: Vec<bool>,
}

impl Model for Cluster {
    ghost use Rattle.group_layout.specs.Cluster as layout;
    ghost use Rattle.group_cluster.specs.History.{HasHistory};

    ghost Value = { layout.Cluster };

    ghost view = { λ c. record { failed = c.failed.items; groups = c.groups } };

    ghost invariant = { λ c. HasHistory (record { failed = c.failed.items; groups = c.groups }) };
}

impl Cluster {
    /// The cluster at the start.
    pub fn new(alloc: Global, layout: Layout) -> Result<Cluster, AllocError>
        ensures { IfOk result (λ cluster. cluster ≡ opening_cluster layout.shape layout.nodes layout.groups) }
    {
        Ok(Cluster {
            groups: ClusterEntries::new(alloc, layout.shape(), layout.groups())?,
            failed: vec![in alloc; false; layout.nodes() as usize]?,
        })
    }

    /// What an event makes of the cluster: it is made in its group, unless its key has another, or fails the processes
    /// of its node in ascending groups, unless the node has failed. After want of memory a group's event has changed
    /// nothing, and a node's failure may have reached the first groups; the node doesn't count as failed, and the same
    /// event goes on.
    pub fn step(&mut self, event: &ClusterEvent) -> Result<ClusterOut, AllocError>
        requires few { HaveFewEvents self.old event.now }
        requires may { MayHappen self.old event.now }
        ensures cluster { IfOk result (λ _. self.new ≡ (cluster_step self.old event.now).cluster) }
        ensures answer { IfOk result (λ out. out.answer ≡ (cluster_step self.old event.now).answer) }
        ensures logged { IfOk result (λ out. out.logged ≡ logged_by (cluster_step self.old event.now)) }
        ensures err { OnErr result (IsCutShort self.old event.now self.new) }
    {
        match event {
            ClusterEvent::InGroup { group, event } => self.step_in(*group, event),
            ClusterEvent::FailNode { node, keep } => self.fail(*node, *keep),
        }
    }

    // An event of a group.
    fn step_in(&mut self, group: u32, event: &Event) -> Result<ClusterOut, AllocError>
        requires few { HasFewEvents self.old.groups group }
        requires may { MayHappen self.old (InGroup group event.now) }
        ensures cluster { IfOk result (λ _. self.new ≡ (cluster_step self.old (InGroup group event.now)).cluster) }
        ensures answer { IfOk result (λ out. out.answer ≡ (cluster_step self.old (InGroup group event.now)).answer) }
        ensures logged { IfOk result (λ out. out.logged ≡ logged_by (cluster_step self.old (InGroup group event.now))) }
        ensures err { OnErr result (self.new ≡ self.old) }
    {
        if let Some(own) = self.groups.other_group(group, event) {
            return Ok(ClusterOut {
                answer: ClusterAnswer::WrongGroup(own),
                logged: 0,
            });
        }
        let out = self.groups.step(group, event)?;
        Ok(ClusterOut {
            answer: ClusterAnswer::Inner(out.answer),
            logged: out.logged,
        })
    }

    // The failure of a node.
    fn fail(&mut self, node: u32, keep: u32) -> Result<ClusterOut, AllocError>
        requires few { HaveFewEvents self.old (FailNode node keep) }
        requires may { MayHappen self.old (FailNode node keep) }
        ensures cluster { IfOk result (λ _. self.new ≡ (cluster_step self.old (FailNode node keep)).cluster) }
        ensures answer { IfOk result (λ out. out.answer ≡ (cluster_step self.old (FailNode node keep)).answer) }
        ensures logged { IfOk result (λ out. out.logged ≡ logged_by (cluster_step self.old (FailNode node keep))) }
        ensures err { OnErr result (IsCutShort self.old (FailNode node keep) self.new) }
    {
        if self.failed[node as usize] {
            return Ok(ClusterOut {
                answer: ClusterAnswer::AlreadyDead,
                logged: 0,
            });
        }
        let nodes = self.failed.len() as u32;
        self.groups.fail_node(nodes, node, keep)?;
        self.failed[node as usize] = true;
        Ok(ClusterOut {
            answer: ClusterAnswer::Done,
            logged: 0,
        })
    }
}
