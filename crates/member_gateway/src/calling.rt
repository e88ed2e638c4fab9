// A client's call begins and ends at a caller of the member.
ghost use Rattle.std.specs.Prelude.{◌≡◌, None, Some, IsTrue, IfSome};
ghost use Rattle.group_member.specs.Callers.{IsFree, IsItsCaller, caller_of, told_in};
ghost use Rattle.member_runs.specs.Calls.{HasCalled, Begins};
ghost use Rattle.member_gateway.specs.Rules.{IsShown, end_of};
ghost use Rattle.member_gateway.specs.Rules as rules;

use crate::calls::Phase;
use crate::command::Command;
use crate::work::MemberWork;
use group_calls::Answer;
use group_member::{CallStage, Member};
use link_frames::Told;
use memc_proto::CallEnd;
use memc_table::Op;

impl MemberWork {
    /// Whether a call can begin at a caller.
    pub(crate) fn may_begin(&self, caller: u32) -> bool
        ensures { IsTrue result → IsFree self.now.callers caller }
    {
        self.member.may_begin(caller)
    }

    /// A call of a connection begins at a caller, which asks a key of this hash.
    #[tactic(auto, using(crate::proofs::Called::begun_so))]
    pub(crate) fn begin(&mut self, caller: u32, op: Op, key: usize, hash: u32)
        requires { IsFree self.old.callers caller }
        ensures { HasCalled (Begins caller op) self.old self.new }
    {
        self.member.begin(caller, op);
        self.calls.begin(caller, key, hash);
    }

    /// What the open call of a caller asks.
    pub(crate) fn command_of(&self, caller: u32) -> Option<Command> {
        if !self.member.has_caller(caller) {
            return None;
        }
        let call = self.member.caller(caller).call()?;
        Some(Command::of(call.op().act()))
    }

    /// The end of a caller's call, if it can be shown: the call is over then.
    #[tactic(auto, using(crate::proofs::Called::shown_so))]
    pub(crate) fn take_end(&mut self, caller: u32) -> Option<CallEnd>
        ensures shown { IfSome result (λ end. IsShown caller end self.old self.new) }
        ensures still { result ≡ None → self.new ≡ self.old }
    {
        let ping = self.fence.confirmed().checked_sub(1)?;
        if !self.member.may_show(caller, ping) {
            return None;
        }
        let end = end_at(&self.member, caller)?;
        let _ = self.member.show(caller, ping);
        self.calls.put(caller, Phase::Waits);
        Some(end)
    }

    /// The next connection whose call can be shown.
    pub(crate) fn next_woken(&mut self) -> Option<usize>
        ensures same { self.new ≡ self.old }
    {
        self.woken.pop_front()
    }
}

// The end of an answered call of a caller of the member: it shares the bytes of the answer.
fn end_at(member: &Member, caller: u32) -> Option<CallEnd>
    requires { IsItsCaller member.now.callers caller }
    ensures { IfSome result (λ end. IfSome (told_in (caller_of member.now.callers caller).call) (λ t. end_of t.answer ≡ Some end)) }
{
    match member.caller(caller).call()?.stage() {
        CallStage::Answered { told, .. } => end_of(told),
        _ => None,
    }
}

// The end of a call that was told so.
fn end_of(told: &Told) -> Option<CallEnd>
    ensures { IfSome result (λ end. rules.end_of told.now.answer ≡ Some end) }
{
    match told.answer() {
        Answer::Reply(reply) => Some(CallEnd::Reply(reply.clone().ok()?)),
        Answer::NoSpace => Some(CallEnd::NoSpace),
        _ => None,
    }
}
