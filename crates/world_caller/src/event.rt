ghost use Rattle.std.specs.Prelude.{◌≡◌, ◌<◌, ◌^◌, IfOk, OnErr};
ghost use Rattle.group_calls.specs.declared.event.Event.TheVariants as happens;
ghost use Rattle.group_run.specs.Headline.{MayCome};
ghost use Rattle.group_run.specs.World.{step};
ghost use Rattle.world_caller.specs.Calling.{most_events};

use group_calls::{Answer, Event};
use group_core::World;
use group_types::ProcessId;
use memc_table::Op;
use std::alloc::AllocError;

/// Makes an event, and gives its answer.
pub(crate) fn make(world: &mut World, event: &Event) -> Result<Answer, AllocError>
    requires counted { world.old.events < most_events }
    requires may { MayCome world.old event.now }
    ensures world { IfOk result (λ _. world.new ≡ (step world.old event.now).world) }
    ensures answer { IfOk result (λ answer. answer ≡ (step world.old event.now).turn.answer) }
    ensures err { OnErr result (world.new ≡ world.old) }
{
    Ok(world.step(event)?.answer)
}

/// Asks a process, and gives the answer.
pub(crate) fn make_ask(
    world: &mut World,
    caller: u32,
    op: &Op,
    at: ProcessId,
) -> Result<Answer, AllocError>
    requires counted { world.old.events < most_events }
    requires may { MayCome world.old (happens.Ask caller op.now at) }
    ensures world { IfOk result (λ _. world.new ≡ (step world.old (happens.Ask caller op.now at)).world) }
    ensures answer { IfOk result (λ answer. answer ≡ (step world.old (happens.Ask caller op.now at)).turn.answer) }
    ensures err { OnErr result (world.new ≡ world.old) }
{
    Ok(world.ask(caller, op, at)?.answer)
}
