ghost use Rattle.std.specs.Prelude.{◌≡◌, ◌<◌, ◌↔◌, IsTrue, false, length, slice_get, Some, None, MatchOption};
ghost use Rattle.group_types.specs.Lists.{at};
ghost use Rattle.group_run.specs.Causes.{IsFailure};
ghost use Rattle.group_layout.specs.Cluster.{MayHappen, world_in};
ghost use Rattle.group_run.specs.Headline.{MayCome};
ghost use Rattle.group_cluster.specs.History.{AllHaveFew, HasFewEvents, HaveFewEvents};
ghost use Rattle.group_cluster.specs.Parts.{AreWithinLogs, log_in};
ghost use Rattle.group_cluster.specs.Promise.{HasClusterPromise};

use crate::cluster::Cluster;
use crate::groups::{ClusterEntries, Part};
use group_calls::{Entry, Event};
use group_core::World;
use group_layout::ClusterEvent;
use group_types::Shape;

impl Cluster {
    /// Events led to the cluster, some of them cut short, and all holds of it that is promised of them.
    pub fn run(&self)
        ensures { HasClusterPromise self.now }
    {
        let _failed = &self.failed;
    }

    /// The groups, and their log.
    pub fn log(&self) -> &ClusterEntries
        ensures log { result.now ≡ self.now.groups }
        ensures promise { HasClusterPromise self.now }
    {
        &self.groups
    }

    /// One of the groups.
    pub fn world(&self, group: u32) -> &World
        requires { group < length self.now.groups.worlds }
        ensures { result.now ≡ world_in self.now.groups group }
    {
        self.groups.world(group)
    }

    /// How many groups there are.
    pub fn groups(&self) -> u32
        ensures { result ≡ length self.now.groups.worlds }
    {
        self.groups.worlds.len() as u32
    }

    /// How many nodes there are.
    pub fn nodes(&self) -> u32
        ensures { result ≡ length self.now.failed }
    {
        self.failed.len() as u32
    }

    /// Whether an event may happen: its group or node is there, and a group's event may come there and is no failure.
    pub fn may_happen(&self, event: &ClusterEvent) -> bool
        ensures { IsTrue result ↔ MayHappen self.now event.now }
    {
        match event {
            ClusterEvent::InGroup { group, event } => {
                *group < self.groups() && self.may_move(*group, event) && !is_failure(event)
            }
            ClusterEvent::FailNode { node, .. } => *node < self.nodes(),
        }
    }

    // Whether a group's event may come.
    fn may_move(&self, group: u32, event: &Event) -> bool
        requires { group < length self.now.groups.worlds }
        ensures { IsTrue result ↔ MayCome (world_in self.now.groups group) event.now }
    {
        self.world(group).may_come(event)
    }

    /// Whether fewer than 2^62 events were made in the worlds in which an event is made.
    pub fn has_few_events(&self, event: &ClusterEvent) -> bool
        requires { MayHappen self.now event.now }
        ensures { IsTrue result ↔ HaveFewEvents self.now event.now }
    {
        match event {
            ClusterEvent::InGroup { group, .. } => self.has_few(*group),
            ClusterEvent::FailNode { .. } => self.all_have_few(),
        }
    }

    // Whether fewer were made in one group.
    fn has_few(&self, group: u32) -> bool
        requires { group < length self.now.groups.worlds }
        ensures { IsTrue result ↔ HasFewEvents self.now.groups group }
    {
        self.world(group).events() < 1 << 62
    }

    // The same of all groups.
    fn all_have_few(&self) -> bool
        ensures { IsTrue result ↔ AllHaveFew self.now.groups }
    {
        'groups: for group in 0..self.groups() {
            if !self.has_few(group) {
                return false;
            }
        }
        true
    }

    /// Whether a node has failed.
    pub fn has_failed(&self, node: u32) -> bool
        requires { node < length self.now.failed }
        ensures { result ≡ at false self.now.failed node }
    {
        self.failed[node as usize]
    }
}

impl ClusterEntries {
    /// One of the groups.
    pub fn world(&self, group: u32) -> &World
        requires { group < length self.now.worlds }
        ensures { result.now ≡ world_in self.now group }
    {
        &self.worlds[group as usize]
    }

    /// The entry at a place of the log, with its group; none behind the end.
    pub fn get(&self, place: usize) -> Option<(u32, &Entry)>
        ensures { MatchOption result (slice_get self.now.log place ≡ None)
            (λ e. slice_get self.now.log place ≡ Some (e.0, e.1.now)) }
    {
        entry_at(self.shape, &self.worlds, &self.parts, place)
    }
}

fn is_failure(event: &Event) -> bool
    ensures { IsTrue result ↔ IsFailure event.now }
{
    match event {
        Event::Fail { .. } => true,
        Event::Ask { .. }
        | Event::Collect { .. }
        | Event::Deliver { .. }
        | Event::Flush { .. }
        | Event::Trace { .. } => false,
    }
}

// The same of a log that is made of parts.
fn entry_at<'a>(
    shape: Shape,
    worlds: &'a [World],
    parts: &[Part],
    place: usize,
) -> Option<(u32, &'a Entry)>
    requires { AreWithinLogs shape worlds.now parts.now }
    ensures { MatchOption result (slice_get (log_in shape worlds.now parts.now) place ≡ None)
        (λ e. slice_get (log_in shape worlds.now parts.now) place ≡ Some (e.0, e.1.now)) }
{
    let mut left = place as u64;
    'parts: for i in 0..parts.len() {
        let part = &parts[i];
        if left < part.many {
            let log = worlds[part.group as usize].log();
            return Some((part.group, &log[part.from + left as usize]));
        }
        left -= part.many;
    }
    None
}
