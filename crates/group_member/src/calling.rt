ghost use Rattle.std.specs.Prelude.{◌≡◌, ◌↔◌, ◌<◌, [], ◌∷◌, true, IsTrue, Some, None};
ghost use Rattle.group_wire.specs.Actions as act;
ghost use Rattle.group_wire.specs.Serving.{stage_given_up};
ghost use Rattle.group_wire.specs.State as wire;
ghost use Rattle.group_member.specs.Acting.{Acts};
ghost use Rattle.group_member.specs.Callers.{CanLetGo, IsFree, IsItsCaller, call_staged, caller_of, told_in, with_call};
ghost use Rattle.group_member.specs.Showing.{CanGiveUp, CanShow};

use crate::member::Member;
use crate::own_caller::OwnCaller;
use link_frames::Told;
use memc_table::{Op, values_are_bytes};

impl Member {
    /// Whether a caller is one of the member's.
    pub fn has_caller(&self, caller: u32) -> bool
        ensures { IsTrue result ↔ IsItsCaller self.now.callers caller }
    {
        self.callers.has(caller)
    }

    /// A caller of the member.
    pub fn caller(&self, caller: u32) -> &OwnCaller
        requires { IsItsCaller self.now.callers caller }
        ensures { result.now ≡ caller_of self.now.callers caller }
    {
        self.callers.caller(caller)
    }

    /// Whether a call can begin: the caller is one of the member's, and has no open call.
    pub fn may_begin(&self, caller: u32) -> bool
        ensures { IsTrue result ↔ IsFree self.now.callers caller }
    {
        self.callers.has(caller) && self.callers.caller(caller).call().is_none()
    }

    /// A client's call begins at a caller that it is lent. It takes no memory.
    pub fn begin(&mut self, caller: u32, op: Op)
        requires { IsFree self.old.callers caller }
        ensures acts { Acts (act.Begin caller op ∷ []) self.old self.new }
        ensures begun { self.new ≡ record self.old {
          callers
              = with_call self.old.callers caller (Some (record { op = op; position = 0; stage = wire.Unasked }));
        } }
    {
        values_are_bytes(op.act());
        self.callers.begin(caller, op);
    }

    /// Whether a call waits for a member whose death is taken.
    pub fn may_give_up(&self, caller: u32) -> bool
        ensures { IsTrue result ↔ CanGiveUp self.now.words self.now.callers caller }
    {
        if !self.callers.has(caller) {
            return false;
        }
        match self.callers.caller(caller).waits_for() {
            Some(x) => self.words.has_taken(x),
            None => false,
        }
    }

    /// What a call asked of a member is given up: a read is asked again, and a change is traced. It takes no memory.
    pub fn give_up(&mut self, caller: u32)
        requires { CanGiveUp self.old.words self.old.callers caller }
        ensures acts { Acts (act.GiveUp caller ∷ []) self.old self.new }
        ensures given_up { self.new ≡ record self.old {
          callers
              = with_call self.old.callers caller (call_staged (λ o. stage_given_up o.op o.stage)
              (caller_of self.old.callers caller).call);
        } }
    {
        self.callers.give_up(caller);
    }

    /// Whether an answer can be shown by a ping: it was told before the ping was sent, which enough have answered.
    pub fn may_show(&self, caller: u32, ping: u64) -> bool
        ensures { IsTrue result ↔ CanShow self.now caller ping }
    {
        self.callers.has(caller)
            && self.callers.caller(caller).was_told_before(ping)
            && ping < self.signs.pinged()
            && self.has_enough(ping)
    }

    /// A call is over: what it was told is shown to the client. It takes no memory.
    pub fn show(&mut self, caller: u32, ping: u64) -> Told
        requires { CanShow self.old caller ping }
        ensures acts { Acts (act.Show caller ping ∷ []) self.old self.new }
        ensures told { told_in (caller_of self.old.callers caller).call ≡ Some result }
        ensures over { self.new ≡ record self.old { callers = with_call self.old.callers caller None } }
    {
        match self.callers.end(caller).and_then(|call| call.into_told()) {
            Some(told) => told,
            None => unreachable!(),
        }
    }

    /// Whether a call waits for no member.
    pub fn may_let_go(&self, caller: u32) -> bool
        ensures { IsTrue result ↔ CanLetGo self.now.callers caller }
    {
        self.callers.has(caller) && self.callers.caller(caller).waits_for().is_none()
    }

    /// A call is let go, and nothing is shown of it. It takes no memory.
    pub fn let_go(&mut self, caller: u32)
        requires { CanLetGo self.old.callers caller }
        ensures acts { Acts (act.LetGo caller ∷ []) self.old self.new }
        ensures over { self.new ≡ record self.old { callers = with_call self.old.callers caller None } }
    {
        let _ = self.callers.end(caller);
    }
}
