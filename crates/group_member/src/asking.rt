ghost use Rattle.std.specs.Prelude.{◌≡◌, ◌↔◌, [], ◌∷◌, IsTrue, IfOk, OnOk, OnErr};
ghost use Rattle.group_wire.specs.Actions as act;
ghost use Rattle.group_member.specs.Acting.{Acts, ActsHanding, request_handed};
ghost use Rattle.group_member.specs.Callers.{CanBeAsked, CanBeTraced, ask_of};
ghost use Rattle.group_member.specs.Treating.{CanAskHere, sent_here, settled_at_request};
ghost use Rattle.group_member.specs.Words.{CanReadFrom};

use crate::member::Member;
use crate::telling::{tell_any, told_for};
use crate::treating::ask_at;
use group_types::ProcessId;
use head_service::Settlement;
use link_frames::{Request, Wish};
use std::alloc::AllocError;

impl Member {
    /// Whether a caller's call is to be asked, and a position is left for it.
    pub fn may_ask(&self, caller: u32) -> bool
        ensures { IsTrue result ↔ CanBeAsked self.now.callers caller }
    {
        self.callers.has(caller) && self.callers.caller(caller).can_be_asked()
    }

    /// A call is asked of another: the request for it. After want of memory the member is as it was.
    pub fn ask(&mut self, caller: u32, of: ProcessId) -> Result<Request, AllocError>
        requires may { CanBeAsked self.old.callers caller }
        requires other { CanReadFrom self.old.words of }
        ensures acts { IfOk result (λ r. ActsHanding (act.Send caller of ∷ []) (request_handed of r) self.old self.new) }
        ensures want { OnErr result (self.new ≡ self.old) }
    {
        let request = self.callers.caller(caller).request(caller)?;
        self.callers.ask(caller, of);
        Ok(request)
    }

    /// Whether a call of unknown fate is to be traced.
    pub fn may_trace(&self, caller: u32) -> bool
        ensures { IsTrue result ↔ CanBeTraced self.now.callers caller }
    {
        self.callers.has(caller) && self.callers.caller(caller).can_be_traced()
    }

    /// A call is traced at another: the request for it. It takes no memory.
    pub fn trace(&mut self, caller: u32, at: ProcessId) -> Request
        requires may { CanBeTraced self.old.callers caller }
        requires other { CanReadFrom self.old.words at }
        ensures { ActsHanding (act.Send caller at ∷ []) (request_handed at result) self.old self.new }
    {
        let (call, partition) = self
            .callers
            .caller(caller)
            .trace_place(self.words.shape().k());
        self.callers.trace(caller, at);
        Request::new(caller, call, Wish::Trace(partition))
    }

    /// Whether a call can be asked of the member's own process: it is to be asked, and the process has numbers left.
    pub fn may_ask_here(&self, caller: u32) -> bool
        ensures { IsTrue result ↔ CanAskHere self.now caller }
    {
        if !self.may_ask(caller) {
            return false;
        }
        match self.callers.caller(caller).call() {
            Some(call) => self.node.may_ask(call.op().act().key()),
            None => false,
        }
    }

    /// A call is asked of the member's own process, which treats it at once, and the caller learns what that tells: the
    /// updates that settle by it, in order. After want of memory the member is as it was.
    pub fn ask_here(&mut self, caller: u32) -> Result<Vec<Settlement>, AllocError>
        requires { CanAskHere self.old caller }
        ensures acts { OnOk result (Acts (sent_here self.old caller) self.old self.new) }
        ensures settled { IfOk result (λ settled. settled.items
            ≡ settled_at_request self.old.words.shape self.old.node.process (ask_of self.old.callers caller)) }
        ensures want { OnErr result (self.new ≡ self.old) }
    {
        let number = self.callers.caller(caller).next();
        let out = ask_at(&mut self.node, caller, self.callers.caller(caller))?;
        self.callers.ask(caller, self.words.name());
        let told = told_for(caller, number, false, out.answer);
        let _ = tell_any(&self.words, &mut self.callers, self.signs.pinged(), told);
        Ok(out.settled)
    }

    /// A call is traced at the member's own process, and the caller learns what that tells. It takes no memory.
    pub fn trace_here(&mut self, caller: u32)
        requires { CanBeTraced self.old.callers caller }
        ensures { Acts (sent_here self.old caller) self.old self.new }
    {
        let (call, partition) = self
            .callers
            .caller(caller)
            .trace_place(self.words.shape().k());
        let answer = self.node.trace(caller, call, partition);
        self.callers.trace(caller, self.words.name());
        let told = told_for(caller, call, true, answer);
        let _ = tell_any(&self.words, &mut self.callers, self.signs.pinged(), told);
    }
}
