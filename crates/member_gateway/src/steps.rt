// The calls of the member, each made where it may be.
ghost use Rattle.std.specs.Prelude.{◌≡◌};
ghost use Rattle.member_gateway.specs.Calls.{GoesQuietly};

use crate::work::MemberWork;
use group_member::{Received, Treatment};
use group_message::Message;
use group_node::process_at;
use group_types::{ProcessId, Shape};
use head_service::Settlement;
use link_frames::{Request, Told};
use membership::Members;
use std::alloc::AllocError;

impl MemberWork {
    /// The shape of the group.
    pub(crate) fn shape(&self) -> Shape
        ensures { result ≡ self.now.words.shape }
    {
        self.member.shape()
    }

    /// A message of another comes.
    pub(crate) fn receive_message(
        &mut self,
        from: ProcessId,
        message: &Message,
    ) -> Result<Received, AllocError>
        ensures goes { GoesQuietly self.old self.new }
    {
        if !self.member.may_read(from) {
            return Ok(Received::Unread);
        }
        self.member.receive(from, message)
    }

    /// Another is cut. False: it can't be.
    pub(crate) fn cut_member(&mut self, x: ProcessId) -> bool
        ensures goes { GoesQuietly self.old self.new }
    {
        if !self.member.may_cut(x) {
            return false;
        }
        self.member.cut(x);
        true
    }

    /// The member says whom it has cut.
    pub(crate) fn say_cut(&mut self) -> Members
        ensures goes { GoesQuietly self.old self.new }
    {
        self.member.say()
    }

    /// What another said comes.
    pub(crate) fn hear_set(&mut self, from: ProcessId, set: &Members)
        ensures goes { GoesQuietly self.old self.new }
    {
        if !self.member.may_read(from) {
            return;
        }
        self.member.hear(from, set);
    }

    /// All deaths are permitted that can be.
    pub(crate) fn permit(&mut self)
        ensures goes { GoesQuietly self.old self.new }
    {
        if !self.member.may_permit() {
            return;
        }
        self.member.permit();
    }

    /// A death is taken, where it can be.
    pub(crate) fn take(&mut self, x: ProcessId) -> Result<Option<Vec<Settlement>>, AllocError>
        ensures goes { GoesQuietly self.old self.new }
    {
        if !self.member.may_take(x) {
            return Ok(None);
        }
        self.member.take(x).map(Some)
    }

    /// The process tells how far it has settled. Whether there was memory for that.
    pub(crate) fn flush_member(&mut self) -> bool
        ensures goes { GoesQuietly self.old self.new }
    {
        self.member.flush().is_ok()
    }

    /// The oldest message for the process at an index is handed out; for one that is cut it is lost.
    pub(crate) fn hand_out_one(&mut self, x: u32) -> Option<Message>
        ensures goes { GoesQuietly self.old self.new }
    {
        let shape = self.member.shape();
        if shape.k() + shape.m() <= x {
            return None;
        }
        let to = process_at(shape, x);
        if self.member.has_cut(to) {
            return self.member.take_lost(to);
        }
        self.member.hand_out(to)
    }

    /// A ping goes to a set, if a number is left for it.
    pub(crate) fn ping_set(&mut self, to: &Members) -> Option<u64>
        ensures goes { GoesQuietly self.old self.new }
    {
        if !self.member.may_ping() {
            return None;
        }
        Some(self.member.ping(to))
    }

    /// The ping of another is answered.
    pub(crate) fn pong_ping(&mut self, from: ProcessId, ping: u64) -> Option<u64>
        ensures goes { GoesQuietly self.old self.new }
    {
        if !self.member.may_read(from) {
            return None;
        }
        Some(self.member.pong(from, ping))
    }

    /// The pong of another comes. False: its ping wasn't sent.
    pub(crate) fn count_pong(&mut self, from: ProcessId, ping: u64) -> bool
        ensures goes { GoesQuietly self.old self.new }
    {
        if !self.member.may_read(from) {
            return false;
        }
        if !self.member.may_count(ping) {
            return false;
        }
        self.member.count(from, ping);
        true
    }

    /// A call is asked of another, where it is to be asked.
    pub(crate) fn ask_other(
        &mut self,
        caller: u32,
        of: ProcessId,
    ) -> Result<Option<Request>, AllocError>
        ensures goes { GoesQuietly self.old self.new }
    {
        if !self.member.may_read(of) {
            return Ok(None);
        }
        if !self.member.may_ask(caller) {
            return Ok(None);
        }
        self.member.ask(caller, of).map(Some)
    }

    /// A call is traced at another, where it is to be traced.
    pub(crate) fn trace_other(&mut self, caller: u32, at: ProcessId) -> Option<Request>
        ensures goes { GoesQuietly self.old self.new }
    {
        if !self.member.may_read(at) {
            return None;
        }
        if !self.member.may_trace(caller) {
            return None;
        }
        Some(self.member.trace(caller, at))
    }

    /// A call is asked of the member's own process, where it is to be asked: what settles by it.
    pub(crate) fn ask_own(&mut self, caller: u32) -> Result<Option<Vec<Settlement>>, AllocError>
        ensures goes { GoesQuietly self.old self.new }
    {
        if !self.member.may_ask_here(caller) {
            return Ok(None);
        }
        self.member.ask_here(caller).map(Some)
    }

    /// A call is traced at the member's own process, where it is to be traced.
    pub(crate) fn trace_own(&mut self, caller: u32)
        ensures goes { GoesQuietly self.old self.new }
    {
        if !self.member.may_trace(caller) {
            return;
        }
        self.member.trace_here(caller);
    }

    /// A request of another comes, which it can have sent. After want of memory it comes back.
    pub(crate) fn read_request(&mut self, from: ProcessId, request: Request) -> Result<(), Request>
        ensures goes { GoesQuietly self.old self.new }
    {
        if !self.member.may_read(from) {
            drop(request);
            return Ok(());
        }
        if !self.member.may_be_from(from, &request) {
            drop(request);
            return Ok(());
        }
        self.member.read(from, request)
    }

    /// The parked request at a place is treated, where it can be.
    pub(crate) fn treat_one(&mut self, place: usize) -> Result<Option<Treatment>, AllocError>
        ensures goes { GoesQuietly self.old self.new }
    {
        if !self.member.may_treat(place) {
            return Ok(None);
        }
        self.member.treat(place).map(Some)
    }

    /// The answer of another comes, where it is for a caller of the member.
    pub(crate) fn learn_told(&mut self, from: ProcessId, told: Told)
        ensures goes { GoesQuietly self.old self.new }
    {
        if !self.member.may_read(from) {
            drop(told);
            return;
        }
        if !self.member.may_learn(&told) {
            drop(told);
            return;
        }
        self.member.learn(from, told);
    }

    /// The call of an update that settled is collected: what goes to its caller's gateway.
    pub(crate) fn collect_due(&mut self, due: &Settlement) -> Option<Told>
        ensures goes { GoesQuietly self.old self.new }
    {
        if !self.member.may_collect(due) {
            return None;
        }
        self.member.collect_due(due)
    }

    /// What a call asked of a process whose death is taken is given up. False: it asked none.
    pub(crate) fn give_up_one(&mut self, caller: u32) -> bool
        ensures goes { GoesQuietly self.old self.new }
    {
        if !self.member.may_give_up(caller) {
            return false;
        }
        self.member.give_up(caller);
        true
    }
}
