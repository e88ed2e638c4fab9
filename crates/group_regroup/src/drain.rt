ghost use Rattle.std.specs.Prelude.{◌≡◌, OnOk, OnErr, IfOk};
ghost use Rattle.group_run.specs.Headline.{MayCome};
ghost use Rattle.group_run.specs.Meaning.{IsDown};
ghost use Rattle.group_run.specs.World.{step};
ghost use Rattle.group_eras.specs.Carry.{drained, draining};
ghost use Rattle.group_regroup.specs.Parts.{IsPart};

use group_calls::{Answer, Event};
use group_core::World;
use std::alloc::AllocError;

// So many events a group counts.
const MOST_EVENTS: u64 = 1 << 62;

/// Makes an event.
pub(crate) fn make(world: &mut World, event: Event) -> Result<(), AllocError>
    requires may { MayCome world.old event }
    ensures world { OnOk result (world.new ≡ (step world.old event).world) }
    ensures err { OnErr result (world.new ≡ world.old) }
{
    let answer = answer_to(world, &event);
    drop(event);
    drop(answer?);
    Ok(())
}

/// Makes an event, and gives its answer. That no further event can be counted is told as want of memory.
pub(crate) fn answer_to(world: &mut World, event: &Event) -> Result<Answer, AllocError>
    requires may { MayCome world.old event.now }
    ensures world { OnOk result (world.new ≡ (step world.old event.now).world) }
    ensures answer { IfOk result (λ answer. answer ≡ (step world.old event.now).turn.answer) }
    ensures err { OnErr result (world.new ≡ world.old) }
{
    if MOST_EVENTS <= world.events() {
        return Err(AllocError);
    }
    let out = world.step(event)?;
    Ok(out.answer)
}

/// Delivers until nothing is on its way. After want of memory the first deliveries were made.
pub(crate) fn drain(world: &mut World) -> Result<(), AllocError>
    requires up { ¬ (IsDown world.old) }
    ensures up { ¬ (IsDown world.new) }
    ensures ok { OnOk result (world.new ≡ drained world.old) }
    ensures err { OnErr result (IsPart world.old (draining world.old) world.new) }
{
    world.run();
    'deliveries: while let Some((from, to)) = world.next_link() {
        make(world, Event::Deliver { from, to })?;
    }
    Ok(())
}
