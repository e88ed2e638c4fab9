ghost use Rattle.std.specs.Prelude.{◌≡◌, ◌++◌, ◌^◌, ◌+◌, ◌≤◌, ◌<◌, length, IfOk, OnOk};
ghost use Rattle.group_calls.specs.Turns.{log_of};
ghost use Rattle.group_calls.specs.declared.event.Event.TheVariants.{Deliver};
ghost use Rattle.group_run.specs.Draining.{drain_events};
ghost use Rattle.group_run.specs.Meaning.{IsDown};
ghost use Rattle.group_run.specs.Progress.{load_of};
ghost use Rattle.group_run.specs.Headline.{MayCome};
ghost use Rattle.group_run.specs.World.{step, turns_from, world_after};
ghost use Rattle.scenario_text.specs.Texts.{entries_text};
ghost use Rattle.scenario_run.specs.Playing.{draining_unless_down};

use crate::entries::write_last;
use crate::making::make_event;
use group_calls::Event;
use group_core::World;
use group_types::ProcessId;
use std::alloc::{AllocError, Global};

/// Makes the deliveries of a drain, writes what they log, and gives their number: none while the group is down.
pub(crate) fn drain(alloc: Global, world: &mut World, text: &mut Vec<u8>) -> Result<u64, AllocError>
    requires light { world.old.events + load_of world.old ≤ 2 ^ 61 }
    ensures world { OnOk result (world.new ≡ world_after world.old (draining_unless_down world.old)) }
    ensures text { OnOk result (text.new.items ≡ text.old.items
        ++ entries_text (log_of (turns_from world.old (draining_unless_down world.old)))) }
    ensures count { IfOk result (λ count. count ≡ length (draining_unless_down world.old)) }
{
    if world.is_down() {
        return Ok(0);
    }
    deliver_all(alloc, world, text)
}

/// Delivers messages until none is left.
fn deliver_all(alloc: Global, world: &mut World, text: &mut Vec<u8>) -> Result<u64, AllocError>
    requires up { ¬ (IsDown world.old) }
    requires light { world.old.events + load_of world.old ≤ 2 ^ 61 }
    ensures world { OnOk result (world.new ≡ world_after world.old (drain_events (load_of world.old) world.old)) }
    ensures text { OnOk result (text.new.items ≡ text.old.items
        ++ entries_text (log_of (turns_from world.old (drain_events (load_of world.old) world.old)))) }
    ensures count { IfOk result (λ count. count ≡ length (drain_events (load_of world.old) world.old)) }
{
    world.run();
    let mut count: u64 = 0;
    'deliveries: while let Some((from, to)) = world.next_link() {
        deliver(alloc, world, from, to, text)?;
        count += 1;
    }
    Ok(count)
}

/// Delivers the first message of a link, and writes what that logs.
fn deliver(
    alloc: Global,
    world: &mut World,
    from: ProcessId,
    to: ProcessId,
    text: &mut Vec<u8>,
) -> Result<(), AllocError>
    requires may { MayCome world.old (Deliver from to) }
    requires events { world.old.events < 2 ^ 62 }
    ensures world { OnOk result (world.new ≡ (step world.old (Deliver from to)).world) }
    ensures text { OnOk result (text.new.items
        ≡ text.old.items ++ entries_text (step world.old (Deliver from to)).turn.logged) }
{
    let out = make_event(world, Event::Deliver { from, to })?;
    write_last(alloc, b"= ", world.log(), out.logged, text)
}
