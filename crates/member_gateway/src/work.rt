ghost use Rattle.std.specs.Prelude.{◌≡◌, IfOk};
ghost use Rattle.group_types.specs.Names.{IsProcess};
ghost use Rattle.group_member.specs.Opening.{opening_member};

use crate::calls::{Calls, Phase};
use crate::dues::Dues;
use crate::fence::{Answered, Fence};
use crate::outgoing::Outgoing;
use crate::parking::Parking;
use crate::sets::{all, without};
use group_member::{CallStage, Member};
use group_node::index_of;
use group_types::{CALLERS, Partition, ProcessId, Shape};
use std::alloc::{AllocError, Global};
use std::collections::VecDeque;
use std::marker::Model;

/// A member with what is to be done for it, which contracts don't see: the calls of its callers that are to be asked, what
/// it has parked, its pings, the deaths that it has taken, and what goes out.
#[derive(Drop)]
pub(crate) struct MemberWork {
    pub(crate) member: Member,
    pub(crate) name: ProcessId,
    pub(crate) own: u32,
    // The others that aren't cut, as a set.
    pub(crate) uncut: u32,
    pub(crate) moment: u64,
    pub(crate) calls: Calls,
    pub(crate) parking: Parking,
    pub(crate) fence: Fence,
    pub(crate) dues: Dues,
    pub(crate) outgoing: Outgoing,
    pub(crate) taken: u32,
    pub(crate) has_word: bool,
    pub(crate) has_settled: bool,
    pub(crate) flushed: u64,
    pub(crate) woken: VecDeque<usize>,
}

impl Model for MemberWork {
    ghost use Rattle.group_member.specs.Standing as standing;

    ghost Value = { standing.Member };

    ghost view = { λ w. w.member };
}

impl MemberWork {
    /// A member at the start, for which nothing is to be done.
    pub(crate) fn new(
        alloc: Global,
        shape: Shape,
        name: ProcessId,
    ) -> Result<MemberWork, AllocError>
        requires { IsProcess shape name }
        ensures opening { IfOk result (λ w. w ≡ opening_member shape name) }
    {
        let own = index_of(shape, name);
        Ok(MemberWork {
            member: Member::new(alloc, shape, name)?,
            name,
            own,
            uncut: without(all(shape), own),
            moment: 0,
            calls: Calls::new(alloc)?,
            parking: Parking::new(alloc)?,
            fence: Fence::new(alloc, shape, own)?,
            dues: Dues::new(alloc),
            outgoing: Outgoing::new(),
            taken: 0,
            has_word: false,
            has_settled: false,
            flushed: 0,
            woken: VecDeque::new(alloc),
        })
    }

    /// The moment of the last turn.
    pub(crate) fn now(&self) -> u64 {
        self.moment
    }

    /// Whether a call can be made that makes a frame, or by which something settles.
    pub(crate) fn is_clear(&self) -> bool {
        self.outgoing.is_clear() && self.dues.len() == 0
    }

    /// Where the call of a caller of the member stands by now: it is to be asked, or waits to be shown.
    pub(crate) fn see(&mut self, caller: u32)
        ensures same { self.new ≡ self.old }
    {
        match stand_of(&self.member, caller) {
            Stand::ToAsk | Stand::ToTrace => self.calls.to_ask(caller),
            Stand::Answered(pinged) => self.note_answer(caller, pinged),
            Stand::Waits => {}
        }
    }

    /// The same of a call that the member's own process was asked: where nothing came of that yet it rests, as long as
    /// something is to come.
    pub(crate) fn see_asked(&mut self, caller: u32)
        ensures same { self.new ≡ self.old }
    {
        match stand_of(&self.member, caller) {
            Stand::ToAsk if self.awaits_more() => self.calls.rest(caller),
            _ => self.see(caller),
        }
    }

    /// Whether a call that was asked here waits for a message, or for an update to settle. Where k is 1 a block is rebuilt
    /// at once, from what the process has alone.
    fn awaits_more(&self) -> bool {
        match self.shape().k() {
            1 => self.member.replica(Partition(0)).waiting_count() > 0,
            _ => true,
        }
    }

    /// Whether a block is rebuilt from what other members have too.
    pub(crate) fn awaits_blocks(&self) -> bool {
        self.member.shape().k() > 1
    }

    /// The same of a call that was traced at the member's own process: where its fate isn't known yet it rests, and where
    /// it is known to be gone it is asked again.
    pub(crate) fn see_traced(&mut self, caller: u32)
        ensures same { self.new ≡ self.old }
    {
        match stand_of(&self.member, caller) {
            Stand::ToTrace => self.calls.rest(caller),
            _ => self.see(caller),
        }
    }

    fn note_answer(&mut self, caller: u32, pinged: u64)
        ensures same { self.new ≡ self.old }
    {
        if self.calls.phase(caller) == Phase::Answered {
            return;
        }
        self.calls.put(caller, Phase::Answered);
        let since = self.moment;
        self.fence.note(Answered {
            caller,
            pinged,
            since,
        });
    }

    /// The connections whose answers can be shown are to be served.
    pub(crate) fn wake(&mut self)
        ensures same { self.new ≡ self.old }
    {
        'answers: for _ in 0..CALLERS {
            if !self.wakes_next() {
                return;
            }
        }
    }

    // Whether there was an answer that can be shown, and memory to note whose it is.
    fn wakes_next(&mut self) -> bool
        ensures same { self.new ≡ self.old }
    {
        if self.woken.reserve(1).is_err() {
            return false;
        }
        let Some(answered) = self.fence.next_shown() else {
            return false;
        };
        if let Some(note) = self.calls.note(answered.caller) {
            let _ = self.woken.push_back(note.key);
        }
        true
    }
}

/// What is to be done for a call.
#[derive(Clone, Copy)]
enum Stand {
    ToAsk,
    ToTrace,
    Answered(u64),
    Waits,
}

fn stand_of(member: &Member, caller: u32) -> Stand {
    if !member.has_caller(caller) {
        return Stand::Waits;
    }
    match member.caller(caller).call().map(|call| call.stage()) {
        Some(CallStage::Unasked) => Stand::ToAsk,
        Some(CallStage::Unknown) => Stand::ToTrace,
        Some(CallStage::Answered { pinged, .. }) => Stand::Answered(*pinged),
        _ => Stand::Waits,
    }
}
