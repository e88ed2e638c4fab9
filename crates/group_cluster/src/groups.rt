ghost use Rattle.std.specs.Prelude.{◌≡◌, ◌<◌, ◌≤◌, ◌^◌, ◌++◌, length, vec_len, vec_capacity, IfOk, OnErr};
ghost use Rattle.group_run.specs.Headline.{MayCome};
ghost use Rattle.group_layout.specs.Cluster.{moved, opening_groups, other_group, turn_of, unless_own, world_in};
ghost use Rattle.group_layout.specs.Layout as layout;
ghost use Rattle.group_cluster.specs.History.{HasFewEvents, move_of};
ghost use Rattle.group_cluster.specs.Parts.{noted};

use group_calls::{Event, Out};
use group_core::World;
use group_layout::layout::group_of;
use group_types::{Key, Shape};
use std::alloc::{AllocError, Global};
use std::marker::Model;

/// What an event logged: so many entries of a group's log, from a place on.
#[derive(Drop)]
pub(crate) struct Part {
    pub(crate) group: u32,
    pub(crate) from: usize,
    pub(crate) many: u64,
}

/// The groups of a cluster, and the log of them all: parts of the groups' own logs, in the order in which they were
/// logged.
#[derive(Drop)]
pub struct ClusterEntries {
    pub(crate) shape: Shape,
    pub(crate) worlds: Vec<World>,
    pub(crate) parts: Vec<Part>,
}

impl Model for ClusterEntries {
    ghost use Rattle.group_layout.specs.Cluster.{Groups};
    ghost use Rattle.group_cluster.specs.Parts.{AreWithinLogs, groups_of};

    ghost Value = { Groups };

    ghost view = { λ g. groups_of g.shape g.worlds.items g.parts.items };

    ghost invariant = { λ g. AreWithinLogs g.shape g.worlds.items g.parts.items };
}

impl ClusterEntries {
    /// Groups at the start.
    pub(crate) fn new(alloc: Global, shape: Shape, count: u32) -> Result<ClusterEntries, AllocError>
        ensures { IfOk result (λ groups. groups ≡ opening_groups shape count) }
    {
        Ok(ClusterEntries {
            shape,
            worlds: worlds_at_start(alloc, shape, count)?,
            parts: Vec::new(alloc),
        })
    }

    /// What an event makes of one group; all others stay. After want of memory nothing but room has changed.
    pub(crate) fn step(&mut self, group: u32, event: &Event) -> Result<Out, AllocError>
        requires group { group < length self.old.worlds }
        requires few { HasFewEvents self.old group }
        requires may { MayCome (world_in self.old group) event.now }
        ensures moved { IfOk result (λ _. self.new ≡ moved self.old (move_of group event.now)) }
        ensures answer { IfOk result (λ out. out.answer ≡ (turn_of self.old (move_of group event.now)).answer) }
        ensures logged { IfOk result (λ out. out.logged ≡ length (turn_of self.old (move_of group event.now)).logged) }
        ensures err { OnErr result (self.new ≡ self.old) }
    {
        self.parts.reserve(1)?;
        let from = self.worlds[group as usize].log().len();
        let out = self.worlds[group as usize].step(event)?;
        let part = Part {
            group,
            from,
            many: out.logged,
        };
        note(&mut self.parts, part);
        Ok(out)
    }

    /// The group of an ask's key, where it isn't this one.
    pub(crate) fn other_group(&self, group: u32, event: &Event) -> Option<u32>
        requires some { 1 ≤ length self.now.worlds }
        requires count { length self.now.worlds ≤ 16 }
        ensures { result ≡ other_group self.now group event.now }
    {
        match event {
            Event::Ask { op, .. } => self.unless_own(group, op.act().key()),
            Event::Collect { .. } => None,
            Event::Deliver { .. } => None,
            Event::Fail { .. } => None,
            Event::Flush { .. } => None,
            Event::Trace { .. } => None,
        }
    }

    // The group of a key, where it isn't this one.
    fn unless_own(&self, group: u32, key: &Key) -> Option<u32>
        requires some { 1 ≤ length self.now.worlds }
        requires count { length self.now.worlds ≤ 16 }
        ensures { result ≡ unless_own group (layout.group_of key.now self.now.shape.k (length self.now.worlds)) }
    {
        let own = group_of(key, self.shape.k(), self.worlds.len() as u32);
        if own == group {
            return None;
        }
        Some(own)
    }
}

// A part stands behind the others, unless it is empty. It takes no memory.
fn note(parts: &mut Vec<Part>, part: Part)
    requires room { vec_len parts.old < vec_capacity parts.old }
    ensures { parts.new.items ≡ noted parts.old.items part }
{
    if part.many == 0 {
        return;
    }
    parts.push_reserved(part);
}

fn worlds_at_start(alloc: Global, shape: Shape, count: u32) -> Result<Vec<World>, AllocError>
    ensures { IfOk result (λ worlds. worlds.items ≡ (opening_groups shape count).worlds) }
{
    let mut worlds = Vec::with_capacity(alloc, count as usize)?;
    'groups: for _ in 0..count {
        worlds.push(World::new(alloc, shape)?)?;
    }
    Ok(worlds)
}
