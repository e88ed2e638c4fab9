ghost use Rattle.std.specs.Prelude.{◌≡◌, ◌<◌, ◌^◌, Some, IfOk, OnErr};
ghost use Rattle.group_types.specs.Names.{IsProcess};
ghost use Rattle.group_calls.specs.declared.event.Event.TheVariants as happens;
ghost use Rattle.group_run.specs.World.{step};
ghost use Rattle.world_caller.specs.Callers.{end_of_failure};
ghost use Rattle.world_caller.specs.Calling.{most_events};

use crate::event::make;
use group_calls::{Answer, Event};
use group_core::World;
use group_types::ProcessId;
use memc_proto::FailEnd;
use std::alloc::AllocError;

/// How an order ends that made its event, by the answer.
fn after_fail(answer: Answer) -> Option<FailEnd>
    ensures { result ≡ end_of_failure answer }
{
    match answer {
        Answer::Done => Some(FailEnd::Made),
        Answer::AlreadyDead => Some(FailEnd::AlreadyDead),
        _ => None,
    }
}

/// Lets a process fail.
pub(crate) fn fail_one(world: &mut World, at: ProcessId, keep: u32) -> Result<FailEnd, AllocError>
    requires counted { world.old.events < most_events }
    requires process { IsProcess world.old.shape at }
    ensures world { IfOk result (λ _. world.new ≡ (step world.old (happens.Fail at keep)).world) }
    ensures end { IfOk result (λ end. end_of_failure (step world.old (happens.Fail at keep)).turn.answer ≡ Some end) }
    ensures err { OnErr result (world.new ≡ world.old) }
{
    match after_fail(make(world, &Event::Fail { at, keep })?) {
        Some(end) => Ok(end),
        None => unreachable!(),
    }
}
