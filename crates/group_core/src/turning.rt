ghost use Rattle.std.specs.Prelude.{◌≡◌, ◌<◌, ◌^◌, Some, None, IfOk, IfSome, OnErr};
ghost use Rattle.group_types.specs.Names.{IsProcess};
ghost use Rattle.group_calls.specs.declared.event.Event.TheVariants as happens;
ghost use Rattle.group_run.specs.Headline.{MayCome};
ghost use Rattle.group_run.specs.Replica.{callers};
ghost use Rattle.group_run.specs.World.{call_of, group_step};
ghost use Rattle.group_ledger.specs.Books.{call_in, refusal_in};
ghost use Rattle.group_core.specs.Runs.{HasRun, group_from};
ghost use Rattle.group_node.specs.Steps.{IsRefusalAnswer};
ghost use Rattle.group_core.specs.Seats.{made};

use crate::members::Members;
use group_calls::Event;
use group_ledger::entering::refusal;
use group_ledger::{Ledger, NewCall};
use group_node::NodeOut;
use group_types::ProcessId;
use head_service::Call;
use memc_table::Op;
use std::alloc::AllocError;

/// The call that is asked, and what its node makes of it.
#[derive(Debug, Drop)]
pub(crate) struct Turn {
    pub(crate) call: Option<NewCall>,
    pub(crate) out: NodeOut,
}

impl Members {
    /// What an event that asks no call makes of the nodes. After want of memory nothing but room has changed.
    pub(crate) fn pass(&mut self, ledger: &Ledger, event: &Event) -> Result<NodeOut, AllocError>
        requires run { HasRun (group_from self.old ledger.now.books) }
        requires may { MayCome (group_from self.old ledger.now.books) event.now }
        requires no_call { call_of (group_from self.old ledger.now.books) event.now ≡ None }
        ensures shape { self.new.shape ≡ self.old.shape }
        ensures step { IfOk result (λ out. group_step (group_from self.old ledger.now.books) event.now
            ≡ made self.new out) }
        ensures err { OnErr result (self.new ≡ self.old) }
    {
        match event {
            Event::Ask { .. } => unreachable!(),
            Event::Collect { caller, call, at } => Ok(self.collect(*at, *caller, *call)),
            Event::Deliver { from, to } => self.deliver(*from, *to),
            Event::Fail { at, keep } => Ok(self.fail(*at, *keep)),
            Event::Flush { at } => self.flush(*at),
            Event::Trace {
                caller,
                call,
                partition,
                at,
            } => Ok(self.trace(*at, *caller, *call, *partition)),
        }
    }

    /// A caller's next call. A refusal is copied for the log, and changes nothing.
    pub(crate) fn ask_next(
        &mut self,
        ledger: &Ledger,
        caller: u32,
        op: &Op,
        at: ProcessId,
    ) -> Result<Turn, AllocError>
        requires run { HasRun (group_from self.old ledger.now.books) }
        requires events { ledger.now.books.events < 2 ^ 62 }
        requires caller { caller < callers }
        requires process { IsProcess self.old.shape at }
        ensures shape { self.new.shape ≡ self.old.shape }
        ensures step { IfOk result (λ turn. group_step (group_from self.old ledger.now.books)
            (happens.Ask caller op.now at) ≡ made self.new turn.out) }
        ensures call { IfOk result (λ turn. call_in ledger.now.books.asked turn.call
            ≡ call_of (group_from self.old ledger.now.books) (happens.Ask caller op.now at)) }
        ensures caller { IfOk result (λ turn. IfSome turn.call (λ c. c.caller < callers)) }
        ensures refusal { IfOk result (λ turn. IfSome turn.call (λ c. c.refusal ≡ refusal_in turn.out.answer)) }
        ensures err { OnErr result (self.new ≡ self.old) }
    {
        let copy = op.clone()?;
        let number = ledger.asks(caller);
        let out = self.ask(at, Call { caller, number }, op)?;
        new_call(caller, copy, out)
    }
}

// The refusal of a call is copied for the log.
fn new_call(caller: u32, op: Op, out: NodeOut) -> Result<Turn, AllocError>
    ensures ok { IfOk result (λ turn. turn ≡ record {
      call = Some
          (record { caller = caller; op = op; refusal = refusal_in out.answer });
      out = out;
    }) }
    ensures err { OnErr result (IsRefusalAnswer out.answer) }
{
    match refusal(&out.answer) {
        Ok(refusal) => Ok(Turn {
            call: Some(NewCall {
                caller,
                op,
                refusal,
            }),
            out,
        }),
        Err(error) => Err(error),
    }
}
