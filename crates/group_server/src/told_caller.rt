use crate::losses::Losses;
use front_end::Caller;
use group_types::ProcessId;
use memc_proto::{CallEnd, FailEnd};
use memc_table::Op;
use std::alloc::AllocError;

/// A caller that notes which processes are lost by its orders.
#[derive(Drop)]
pub(crate) struct ToldCaller<'l, C> {
    caller: C,
    losses: &'l Losses,
}

impl<'l, C: Drop> ToldCaller<'l, C> {
    ghost use Rattle.std.specs.Prelude.{◌≡◌};

    /// Notes them there.
    pub(crate) fn new(caller: C, losses: &'l Losses) -> ToldCaller<'l, C>
        ensures { result.caller ≡ caller }
    {
        ToldCaller { caller, losses }
    }

    /// The caller, as the calls left it.
    pub(crate) fn into_caller(self) -> C {
        let ToldCaller { caller, losses: _ } = self;
        caller
    }
}

impl<C: Caller> Caller for ToldCaller<'_, C> {
    ghost use Rattle.group_server.specs.Told.{told_onward, told_order, told_ways};

    ghost ways = { told_ways C.ways };

    ghost later = { λ before after. C.later before.caller after.caller };

    ghost order = { told_order C.later C.order };

    ghost onward = { told_onward C.ways C.later C.onward };

    fn call(&mut self, op: &Op) -> Result<CallEnd, AllocError> {
        self.caller.call(op)
    }

    fn fail(&mut self, at: ProcessId, keep: u32) -> Result<FailEnd, AllocError> {
        let end = self.caller.fail(at, keep)?;
        if end == FailEnd::Made {
            self.losses.note(at);
        }
        Ok(end)
    }
}
