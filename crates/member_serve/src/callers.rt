use group_gateways::GroupGateways;
use group_types::{Key, Partition, ProcessId};
use item_index::Slot;
use member_gateway::{Command, MemberGateway, Outcome, Usage};
use member_links::MemberLinks;
use moving_gateway::MovingGateway;
use ready_worker::{Closing, Exchange};
use std::alloc::AllocError;

/// The callers of a machine's members, one of each group, as their program sees them. Groups are counted from 0.
pub(crate) trait Callers: Exchange<Vec<MemberLinks>> + Closing {
    /// For how many milliseconds at most the program may wait for what comes: without end where nothing is due.
    fn limit(&self) -> Option<u64>;

    /// Since when the oldest answer waits to be shown, in milliseconds of the links' clock.
    fn waits_since(&self) -> Option<u64>;

    /// How many calls are open.
    fn open_calls(&self) -> usize;

    /// How many requests are parked.
    fn parked(&self) -> usize;

    /// How many answers wait to be shown.
    fn unshown(&self) -> usize;

    /// How many calls of a command have ended so.
    fn ended(&self, command: Command, outcome: Outcome) -> u64;

    /// How many pings were sent.
    fn pings(&self) -> u64;

    /// How many block sessions the members' processes have opened.
    fn sessions(&self) -> u64;

    /// Whether calls are refused that may change an item.
    fn is_closed(&self) -> bool;

    /// How many calls are open that may change an item.
    fn changing(&self) -> u32;

    /// Whether the death of a process of a group is taken.
    fn has_taken(&self, group: u32, x: ProcessId) -> bool;

    /// What the process of a group keeps of a partition, if that is one of the group.
    fn usage(&self, group: u32, partition: Partition) -> Option<Usage>;

    /// Whether the process of a group heads a partition.
    fn is_head(&self, group: u32, partition: Partition) -> bool;

    /// A copy of the settled items of a partition as the process of the group has them, in the order of the keys, if that is one
    /// of the group.
    fn items(
        &self,
        group: u32,
        partition: Partition,
    ) -> Result<Option<Vec<(Key, Slot)>>, AllocError>;

    /// A number of a partition as it is told, if that has 64 bits.
    fn told(&self, group: u32, partition: Partition, number: u64) -> Option<u64>;
}

/// The callers of a member of one group.
pub(crate) type Own = MovingGateway<MemberGateway>;

/// Those of a group.
fn of(callers: &GroupGateways<Own>, group: u32) -> Option<&Own> {
    callers.groups().get(group as usize)
}

/// The lesser of two, where there are two.
fn least(one: Option<u64>, other: Option<u64>) -> Option<u64> {
    match (one, other) {
        (Some(one), Some(other)) => Some(one.min(other)),
        (None, other) => other,
        (one, None) => one,
    }
}

impl Callers for GroupGateways<Own> {
    fn limit(&self) -> Option<u64> {
        let mut limit = None;
        'groups: for callers in self.groups() {
            limit = least(limit, callers.inner().limit());
        }
        limit
    }

    fn waits_since(&self) -> Option<u64> {
        let mut since = None;
        'groups: for callers in self.groups() {
            since = least(since, callers.inner().waits_since());
        }
        since
    }

    fn open_calls(&self) -> usize {
        let mut open: usize = 0;
        'groups: for callers in self.groups() {
            open = open.saturating_add(callers.inner().open_calls());
        }
        open
    }

    fn parked(&self) -> usize {
        let mut parked: usize = 0;
        'groups: for callers in self.groups() {
            parked = parked.saturating_add(callers.inner().parked());
        }
        parked
    }

    fn unshown(&self) -> usize {
        let mut unshown: usize = 0;
        'groups: for callers in self.groups() {
            unshown = unshown.saturating_add(callers.inner().unshown());
        }
        unshown
    }

    fn ended(&self, command: Command, outcome: Outcome) -> u64 {
        let mut ended: u64 = 0;
        'groups: for callers in self.groups() {
            ended = ended.saturating_add(callers.inner().ended(command, outcome));
        }
        ended
    }

    fn pings(&self) -> u64 {
        let mut pings: u64 = 0;
        'groups: for callers in self.groups() {
            pings = pings.saturating_add(callers.inner().pings());
        }
        pings
    }

    fn sessions(&self) -> u64 {
        let mut sessions: u64 = 0;
        'groups: for callers in self.groups() {
            sessions = sessions.saturating_add(callers.inner().sessions());
        }
        sessions
    }

    fn is_closed(&self) -> bool {
        self.groups().iter().all(|callers| callers.is_closed())
    }

    fn changing(&self) -> u32 {
        let mut changing: u32 = 0;
        'groups: for callers in self.groups() {
            changing = changing.saturating_add(callers.inner().changing());
        }
        changing
    }

    fn has_taken(&self, group: u32, x: ProcessId) -> bool {
        of(self, group).is_some_and(|callers| callers.inner().has_taken(x))
    }

    fn usage(&self, group: u32, partition: Partition) -> Option<Usage> {
        of(self, group)?.inner().usage(partition)
    }

    fn is_head(&self, group: u32, partition: Partition) -> bool {
        of(self, group).is_some_and(|callers| callers.inner().is_head(partition))
    }

    fn items(
        &self,
        group: u32,
        partition: Partition,
    ) -> Result<Option<Vec<(Key, Slot)>>, AllocError> {
        match of(self, group) {
            Some(callers) => callers.inner().items(partition),
            None => Ok(None),
        }
    }

    fn told(&self, group: u32, partition: Partition, number: u64) -> Option<u64> {
        of(self, group)?.told(partition, number)
    }
}
