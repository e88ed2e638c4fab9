use crate::caller::Caller;
use crate::gateway::Gateway;
use group_types::ProcessId;
use memc_proto::{CallEnd, FailEnd};
use memc_table::Op;
use std::alloc::AllocError;

/// A caller as a gateway. A call is made as it is begun, so at most one is open, and its end has come.
#[derive(Drop)]
pub struct AtOnce<C> {
    caller: C,
    ended: Option<Ended>,
}

/// The call that is open.
#[derive(Debug, Drop, PartialEq, Eq)]
pub struct OnlyCall {}

/// A call that was made, and its end, which wasn't taken yet.
#[derive(Drop)]
pub(crate) struct Ended {
    op: Op,
    end: CallEnd,
}

impl<C> AtOnce<C> {
    ghost use Rattle.std.specs.Prelude.{◌≡◌, None};

    /// Makes the calls of this caller.
    pub fn new(caller: C) -> AtOnce<C>
        ensures caller { result.caller ≡ caller }
        ensures none { result.ended ≡ None }
    {
        AtOnce {
            caller,
            ended: None,
        }
    }

    /// The caller, as the calls left it.
    pub fn into_caller(self) -> C
        ensures { result ≡ self.caller }
    {
        let AtOnce { caller, ended: _ } = self;
        caller
    }
}

impl<C: Caller> Gateway for AtOnce<C> {
    ghost use Rattle.front_end.specs.AtOnce.{at_once, order_of};

    type Call = OnlyCall;

    ghost rules = { at_once C.ways C.later };

    ghost order = { order_of C.later C.order };

    fn turn_of(&mut self, _key: usize) {}

    fn begin(&mut self, op: Op) -> Result<Option<OnlyCall>, AllocError> {
        if self.ended.is_some() {
            return Ok(None);
        }
        let end = self.caller.call(&op)?;
        self.ended = Some(Ended { op, end });
        Ok(Some(OnlyCall {}))
    }

    fn take_end(&mut self, _call: &OnlyCall) -> Option<CallEnd> {
        let Ended { op: _, end } = self.ended.take()?;
        Some(end)
    }

    fn fail(&mut self, at: ProcessId, keep: u32) -> Result<FailEnd, AllocError> {
        self.caller.fail(at, keep)
    }
}
