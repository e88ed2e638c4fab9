ghost use Rattle.std.specs.Prelude.{◌≡◌, ◌<◌, ◌^◌, None, IfOk, OnErr};
ghost use Rattle.memc_table.specs.Asked.{Asked};
ghost use Rattle.group_run.specs.Replica.{callers};
ghost use Rattle.world_caller.specs.Calling.{IsCallCutShort, IsCallMade, due, most_events};
ghost use Rattle.world_caller.specs.Laws.{CanGoOnFrom, IsTicketed};
ghost use Rattle.world_caller.specs.Making.{IsStepMade};

use crate::drain::drain;
use crate::event::{make, make_ask};
use crate::laws::{asks_are_few, asks_lead_on, collects_lead_on};
use crate::serving::server;
use crate::stage::{Next, Stage, after_ask, after_collect};
use group_calls::Event;
use group_core::World;
use group_types::{ProcessId, home};
use memc_proto::CallEnd;
use memc_table::{Op, values_are_bytes};
use std::alloc::AllocError;

/// Makes a call to its end. After want of memory the events that were made before it stand.
pub(crate) fn make_call(world: &mut World, caller: u32, op: &Op) -> Result<CallEnd, AllocError>
    requires { caller < callers }
    ensures called { IfOk result (λ end. IsCallMade caller op.now world.old end world.new) }
    ensures stopped { OnErr result (IsCallCutShort caller op.now world.old world.new) }
{
    world.run();
    asks_are_few();
    let mut stage = Stage::Asks;
    'stages: while drain(world)? {
        match go_on(world, caller, op, stage)? {
            Next::Goes(next) => stage = next,
            Next::Ends(end) => return Ok(end),
        }
    }
    Ok(CallEnd::Worn)
}

/// Makes the call's own event, where nothing is left to deliver.
fn go_on(world: &mut World, caller: u32, op: &Op, stage: Stage) -> Result<Next, AllocError>
    requires caller { caller < callers }
    requires counted { world.old.events < most_events }
    requires due { due world.old ≡ None }
    requires stands { CanGoOnFrom caller world.old stage }
    ensures made { IfOk result (λ next. IsStepMade caller op.now world.old stage world.new next) }
    ensures err { OnErr result (world.new ≡ world.old) }
{
    match stage {
        Stage::Asks => ask(world, caller, op),
        Stage::Collects { call, at } => collect(world, caller, call, at),
    }
}

/// Asks the op at the head of its key's partition.
fn ask(world: &mut World, caller: u32, op: &Op) -> Result<Next, AllocError>
    requires caller { caller < callers }
    requires counted { world.old.events < most_events }
    requires due { due world.old ≡ None }
    ensures made { IfOk result (λ next. IsStepMade caller op.now world.old Stage.Asks world.new next) }
    ensures err { OnErr result (world.new ≡ world.old) }
{
    world.run();
    asks_lead_on();
    values_are_bytes(op.act());
    let call = world.asks(caller);
    let at = server(world, home(op.act().key(), world.shape().k()));
    match after_ask(call, at, make_ask(world, caller, op, at)?) {
        Some(next) => Ok(next),
        None => unreachable!(),
    }
}

/// Collects a ticket at the process that issued it.
fn collect(world: &mut World, caller: u32, call: u64, at: ProcessId) -> Result<Next, AllocError>
    requires caller { caller < callers }
    requires counted { world.old.events < most_events }
    requires due { due world.old ≡ None }
    requires ticketed { IsTicketed world.old caller call at }
    ensures made { IfOk result (λ next. (op : Asked)
        → IsStepMade caller op world.old (Stage.Collects call at) world.new next) }
    ensures err { OnErr result (world.new ≡ world.old) }
{
    world.run();
    collects_lead_on();
    match after_collect(make(world, &Event::Collect { caller, call, at })?) {
        Some(next) => Ok(next),
        None => unreachable!(),
    }
}
