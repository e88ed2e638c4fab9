ghost use Rattle.std.specs.Prelude.{◌≡◌, ◌≤◌, ◌<◌, ◌^◌, None, true, false, IfOk, OnErr};
ghost use Rattle.world_caller.specs.Calling.{due, most_events};
ghost use Rattle.world_caller.specs.Making.{AreDelivered, IsFirstDelivered};

use crate::event::make;
use crate::laws::due_delivers;
use group_calls::Event;
use group_core::World;
use std::alloc::AllocError;

/// So many events a group counts.
pub(crate) const MOST_EVENTS: u64 = 1 << 62;

/// The delivery that comes first: none while the group is down.
fn first_due(world: &World) -> Option<Event>
    ensures { result ≡ due world.now }
{
    if world.is_down() {
        return None;
    }
    let (from, to) = world.next_link()?;
    Some(Event::Deliver { from, to })
}

/// Makes the delivery that comes first, and says whether there was one.
fn deliver(world: &mut World) -> Result<bool, AllocError>
    requires counted { world.old.events < most_events }
    ensures some { IfOk result (λ some. some ≡ true → IsFirstDelivered world.old world.new) }
    ensures none { IfOk result (λ some. some ≡ false → (due world.old ≡ None) × (world.new ≡ world.old)) }
    ensures err { OnErr result (world.new ≡ world.old) }
{
    world.run();
    due_delivers();
    match first_due(world) {
        None => Ok(false),
        Some(event) => {
            make(world, &event)?;
            Ok(true)
        }
    }
}

/// Delivers until nothing is left, or no further event can be counted, and says whether one can.
pub(crate) fn drain(world: &mut World) -> Result<bool, AllocError>
    ensures delivered { AreDelivered world.old world.new }
    ensures drained { IfOk result (λ counts. counts ≡ true
        → (world.new.events < most_events) × (due world.new ≡ None)) }
    ensures worn { IfOk result (λ counts. counts ≡ false → most_events ≤ world.new.events) }
{
    world.run();
    due_delivers();
    'deliveries: while world.events() < MOST_EVENTS {
        if !deliver(world)? {
            return Ok(true);
        }
    }
    Ok(false)
}
