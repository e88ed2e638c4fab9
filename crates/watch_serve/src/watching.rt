use crate::changes::Changes;
use crate::exchange::Exchange;
use crate::keys::Keys;
use crate::lease::Lease;
use crate::member_wire::MemberWire;
use crate::trust::Trust;
use group_config::{MemberSettings, WatchSettings};
use mio::{Events, Poll};
use std::alloc::Global;
use watch_rules::Standing;

/// A member that is watched.
#[derive(Drop)]
pub(crate) struct Watching<'a, R, W> {
    pub(crate) alloc: Global,
    pub(crate) rt: &'a R,
    pub(crate) report: &'a W,
    pub(crate) settings: &'a MemberSettings,
    pub(crate) watch: &'a WatchSettings,
    pub(crate) poll: Poll,
    pub(crate) events: Events,
    pub(crate) keys: Keys,
    pub(crate) member: MemberWire,
    pub(crate) exchange: Exchange,
    pub(crate) changes: Changes,
    pub(crate) lease: Lease,
    pub(crate) trust: Trust,
    // What etcd keeps of each member, and of who is dead.
    pub(crate) members: Vec<Standing>,
    pub(crate) dead: String,
    pub(crate) revision: u64,
    // Who is to be dead next.
    pub(crate) next: Option<usize>,
    // Which address of etcd is asked, when it answered last, whether it was told that it doesn't, and from when on it may be asked again.
    pub(crate) at: usize,
    pub(crate) answered: u64,
    pub(crate) is_away: bool,
    pub(crate) again: u64,
    // Whether it was looked at since the lease changed, and when it is to be looked at again.
    pub(crate) has_looked: bool,
    pub(crate) look_due: u64,
    pub(crate) now: u64,
}
