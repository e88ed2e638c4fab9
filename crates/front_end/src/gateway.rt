ghost use Rattle.std.specs.Prelude.{◌≡◌, Ok, None, IfOk, IfSome, IsSome, OnErr};
ghost use Rattle.front_end.specs.Gateway.{IsEndOf, IsNotOpen, KeepsOpen, KeepsOtherCalls, LendsNone, LendsOnly, Rules};
ghost use Rattle.front_end.specs.Order.{IsOrder};

use group_types::ProcessId;
use memc_proto::{CallEnd, FailEnd};
use memc_table::Op;
use std::alloc::AllocError;

/// Who makes the calls of many connections, of which several may be open at once.
pub trait Gateway {
    /// What a connection keeps of a call that it began.
    type Call: Drop;

    // What calls may come to, which are open, and which gateways come behind others.
    ghost rules: { Rules Self Self.Call };

    // Each comes behind itself, and they come one behind the other.
    ghost order: { IsOrder rules.later };

    /// The connection of this key has its turn: a call that begins now is its own.
    fn turn_of(&mut self, key: usize)
        ensures open { KeepsOpen rules self.old self.new }
        ensures lends { LendsNone rules self.old self.new }
        ensures later { rules.later self.old self.new };

    /// Begins a call. None: no caller is free, and one has to be waited for.
    fn begin(&mut self, op: Op) -> Result<Option<Self::Call>, AllocError>
        ensures begun { IfOk result (λ begun. IfSome begun (λ call. rules.opened self.new call op self.old)) }
        ensures fresh { IfOk result (λ begun. IfSome begun (λ call. IsNotOpen rules self.old call)) }
        ensures others { KeepsOpen rules self.old self.new }
        ensures lends { IfOk result (λ begun. LendsOnly rules begun self.old self.new) }
        ensures full { result ≡ Ok None → self.new ≡ self.old }
        ensures later { rules.later self.old self.new }
        ensures lends_none { OnErr result (LendsNone rules self.old self.new) }
        ensures want { OnErr result (rules.ways.kept self.old op self.new) };

    /// The end of an open call, if it has come. The call is over then, and its caller free.
    fn take_end(&mut self, call: &Self::Call) -> Option<CallEnd>
        ensures ended { IfSome result (λ end. IsEndOf rules self.old call.now end self.new) }
        ensures over { IsSome result → IsNotOpen rules self.new call.now }
        ensures free { IsSome result → ¬ (rules.lent self.new call.now) }
        ensures others { KeepsOtherCalls rules call.now self.old self.new }
        ensures lends { LendsNone rules self.old self.new }
        ensures still { result ≡ None → self.new ≡ self.old }
        ensures later { rules.later self.old self.new };

    /// Lets a process fail, of which each link keeps its first `keep` messages, where such orders are taken.
    fn fail(&mut self, at: ProcessId, keep: u32) -> Result<FailEnd, AllocError>
        ensures failed { IfOk result (λ end. rules.ways.failed self.old at keep end self.new) }
        ensures others { KeepsOpen rules self.old self.new }
        ensures lends { LendsNone rules self.old self.new }
        ensures later { rules.later self.old self.new }
        ensures want { OnErr result (rules.ways.unmade self.old self.new) };
}
