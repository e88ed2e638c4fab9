ghost use Rattle.std.specs.Prelude.{IfOk, OnErr};
ghost use Rattle.front_end.specs.Calls.{Ways};
ghost use Rattle.front_end.specs.Order.{IsOrder, LeadsOn};

use group_types::ProcessId;
use memc_proto::{CallEnd, FailEnd};
use memc_table::Op;
use std::alloc::AllocError;

/// Who makes the calls of a connection.
pub trait Caller {
    // What a call may come to, what the order that a process fail may come to, and what each of them may leave at want of memory.
    ghost ways: { Ways Self };

    // Whether a caller comes behind another: each behind itself, one behind the other, and after a call behind where it began.
    ghost later: { Self → Self → Type 0 };

    ghost order: { IsOrder later };

    ghost onward: { LeadsOn ways later };

    /// Makes one call to its end.
    fn call(&mut self, op: &Op) -> Result<CallEnd, AllocError>
        ensures made { IfOk result (λ end. ways.made self.old op.now end self.new) }
        ensures want { OnErr result (ways.kept self.old op.now self.new) };

    /// Lets a process fail, of which each link keeps its first `keep` messages.
    fn fail(&mut self, at: ProcessId, keep: u32) -> Result<FailEnd, AllocError>
        ensures failed { IfOk result (λ end. ways.failed self.old at keep end self.new) }
        ensures want { OnErr result (ways.unmade self.old self.new) };
}

/// Makes a call to its end.
pub(crate) fn make_call<C: Caller>(caller: &mut C, op: Op) -> Result<CallEnd, AllocError>
    ensures made { IfOk result (λ end. C.ways.made caller.old op end caller.new) }
    ensures want { OnErr result (C.ways.kept caller.old op caller.new) }
{
    caller.call(&op)
}
