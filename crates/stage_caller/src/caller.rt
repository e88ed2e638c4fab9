ghost use Rattle.std.specs.Prelude.{◌≡◌, ◌<◌, IfOk, OnErr};
ghost use Rattle.group_stage.specs.Seated.{IsOf};
ghost use Rattle.stage_caller.specs.Calling.{IsCalled, IsSeatCutShort};
ghost use Rattle.stage_caller.specs.declared.phase.Phase.TheVariants.{Waits};

use crate::calling::make_call;
use crate::failing::{fail_process, has};
use crate::heads::Heads;
use crate::phase::Phase;
use front_end::Caller;
use group_stage::{Seat, Stage};
use group_types::ProcessId;
use memc_proto::{CallEnd, FailEnd};
use memc_table::Op;
use std::alloc::AllocError;

/// Makes the calls of a connection over a group that threads share, from a seat of its own. Each begins at the process
/// that last answered one for its partition.
#[derive(Drop)]
pub struct StageCaller<'a> {
    stage: &'a Stage,
    seat: Seat,
    heads: Heads,
    control: bool,
    ghost of: { IsOf stage.now seat },
}

impl<'a> StageCaller<'a> {
    ghost use Rattle.stage_caller.specs.Ordering.{IsSameStage};

    /// A caller from this seat, which takes orders that a process fail where `control` is on.
    pub fn new(stage: &'a Stage, seat: Seat, control: bool) -> StageCaller<'a>
        requires { IsOf stage.now seat }
        ensures stage { result.stage.now ≡ stage.now }
        ensures seat { result.seat ≡ seat }
        ensures control { result.control ≡ control }
    {
        StageCaller {
            stage,
            seat,
            heads: Heads::new(),
            control,
        }
    }

    /// Goes on with a call for the op whose ask of this number was given a ticket, as it stands after want of memory.
    pub fn resume(&mut self, op: &Op, call: u64) -> Result<CallEnd, AllocError>
        requires asked { call < self.old.seat.asks }
        ensures same { IsSameStage self.old self.new }
        ensures called { IfOk result (λ end. IsCalled self.old.seat op.now (Waits call) end self.new.seat) }
        ensures stopped { OnErr result (IsSeatCutShort self.old.seat op.now (Waits call) self.new.seat) }
    {
        let from_data = &mut Heads::new();
        make_call(
            self.stage,
            &mut self.seat,
            from_data,
            op,
            Phase::Waits { call },
        )
    }

    /// From now on it takes orders that a process fail where `control` is on.
    pub fn take_orders(&mut self, control: bool)
        ensures stage { self.new.stage ≡ self.old.stage }
        ensures seat { self.new.seat ≡ self.old.seat }
        ensures control { self.new.control ≡ control }
    {
        self.control = control;
    }

    /// The seat, as the calls left it.
    pub fn into_seat(self) -> Seat
        ensures seat { result ≡ self.entry.seat }
        ensures of { IsOf self.entry.stage.now result }
    {
        let StageCaller {
            stage: _,
            seat,
            heads: _,
            control: _,
        } = self;
        seat
    }
}

impl<'a> Caller for StageCaller<'a> {
    ghost use Rattle.stage_caller.specs.Behind.{IsLaterSeat, stage_onward, stage_order, stage_ways};

    ghost ways = { stage_ways };

    ghost later = { IsLaterSeat };

    ghost order = { stage_order };

    ghost onward = { stage_onward };

    fn call(&mut self, op: &Op) -> Result<CallEnd, AllocError> {
        make_call(self.stage, &mut self.seat, &mut self.heads, op, Phase::Asks)
    }

    fn fail(&mut self, at: ProcessId, keep: u32) -> Result<FailEnd, AllocError> {
        if !self.control {
            return Ok(FailEnd::Off);
        }
        if !has(self.stage.shape(), at) {
            return Ok(FailEnd::NoProcess);
        }
        fail_process(self.stage, &mut self.seat, at, keep)
    }
}
