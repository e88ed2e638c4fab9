// What the program of a member sees of it.
ghost use Rattle.std.specs.Prelude.{◌≡◌, ℕ, length, false};
ghost use Rattle.group_types.specs.declared.process.ProcessId.TheVariants.{DataNode, ParityNode};
ghost use Rattle.membership.specs.Members.{knows_dead};
ghost use Rattle.member_gateway.specs.Changing.{AsksGet, OnlyGets};

use crate::command::Command;
use crate::gateway::MemberGateway;
use crate::outcome::Outcome;
use crate::sending::FLUSH;
use crate::sets::{has, place_of};
use crate::work::MemberWork;
use group_types::{ProcessId, Shape};
use memc_table::Act;

/// How long the program may wait while answers are to be shown, in milliseconds.
const SHOW: u64 = 2;

impl MemberGateway {
    /// The shape of the group.
    pub fn shape(&self) -> Shape
        ensures { result ≡ self.now.member.words.shape }
    {
        self.work.shape()
    }

    /// Which process it is.
    pub fn name(&self) -> ProcessId
        ensures { result ≡ self.now.member.words.name }
    {
        self.work.member.name()
    }

    /// Whether a process is cut.
    pub fn has_cut(&self, x: ProcessId) -> bool
        ensures { result ≡ knows_dead self.now.member.words.cut x }
    {
        self.work.member.has_cut(x)
    }

    /// Whether the death of a process is taken.
    pub fn has_taken(&self, x: ProcessId) -> bool {
        has(self.work.taken, place_of(self.work.shape(), x))
    }

    /// How many requests are parked.
    pub fn parked(&self) -> usize
        ensures { result ≡ length self.now.member.parked }
    {
        self.work.member.parked()
    }

    /// How many calls are open.
    pub fn open_calls(&self) -> usize {
        self.work.open_calls()
    }

    /// How many calls are open that may change an item.
    pub fn changing(&self) -> u32
        ensures { result ≡ 0 → OnlyGets self.now.member }
    {
        self.work.changing()
    }

    /// How many answers wait to be shown.
    pub fn unshown(&self) -> usize {
        self.work.fence.unshown()
    }

    /// How many calls of a command have ended so.
    pub fn ended(&self, command: Command, outcome: Outcome) -> u64 {
        self.ended.count(command, outcome)
    }

    /// How many pings were sent.
    pub fn pings(&self) -> u64 {
        self.work.fence.pinged()
    }

    /// How many block sessions its process has opened, each of which rebuilds a block of every lost space: none at a data process.
    pub fn sessions(&self) -> u64
        ensures parity { (i : ℕ) → self.now.member.node.process.name ≡ ParityNode i
            → result ≡ self.now.member.node.process.as_leader.last_session }
        ensures data_process { (d : ℕ) → self.now.member.node.process.name ≡ DataNode d → result ≡ 0 }
    {
        self.work.member.last_session()
    }

    /// Since when the oldest answer waits to be shown, by the clock of its links.
    pub fn waits_since(&self) -> Option<u64> {
        self.work.fence.oldest().map(|answered| answered.since)
    }

    /// For how many milliseconds at most the program may wait for what comes: none where something is to be done at once,
    /// and without end where nothing is due.
    pub fn limit(&self) -> Option<u64> {
        if self.work.has_more() {
            return Some(0);
        }
        if self.work.fence.oldest().is_some() {
            return Some(SHOW);
        }
        if self.work.has_settled || self.work.has_word || !self.work.is_clear() {
            return Some(FLUSH);
        }
        None
    }
}

impl MemberWork {
    // Whether something can be done at once.
    fn has_more(&self) -> bool {
        self.parking.some_can() || self.calls.asks() > 0 || self.calls.can_go_on()
    }

    // How many open calls may change an item.
    fn changing(&self) -> u32
        ensures { result ≡ 0 → OnlyGets self.now }
    {
        let mut changing: u32 = 0;
        'callers: for caller in 0..group_types::CALLERS {
            if self.may_change(caller) {
                changing = changing.saturating_add(1);
            }
        }
        changing
    }

    // Whether the open call of a caller may change an item.
    fn may_change(&self, caller: u32) -> bool
        ensures { result ≡ false → AsksGet self.now caller }
    {
        if !self.member.has_caller(caller) {
            return false;
        }
        match self.member.caller(caller).call() {
            Some(call) => !matches!(call.op().act(), Act::Get { .. }),
            None => false,
        }
    }

    fn open_calls(&self) -> usize {
        let mut open: usize = 0;
        'callers: for caller in 0..group_types::CALLERS {
            if self.command_of(caller).is_some() {
                open = open.saturating_add(1);
            }
        }
        open
    }
}
