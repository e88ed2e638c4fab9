ghost use Rattle.std.specs.Prelude.{◌≡◌, ◌<◌, ◌^◌, length, IfOk, OnOk};
ghost use Rattle.group_calls.specs.declared.event.Event.TheVariants.{Deliver};
ghost use Rattle.group_run.specs.Meaning.{IsDown};
ghost use Rattle.scenario_run.specs.Playing.{draining_unless_down};
ghost use Rattle.group_eras.specs.Eras.{MayMake, era_step, eras_after};
ghost use Rattle.group_eras.specs.Promise.{IsLed};

use group_calls::{Event, Out};
use group_regroup::Regroup;
use group_types::ProcessId;
use std::alloc::AllocError;

// So many events a group counts.
const MOST_EVENTS: u64 = 1 << 62;

/// Makes an event.
pub(crate) fn make(regroup: &mut Regroup, event: Event) -> Result<Out, AllocError>
    requires may { MayMake regroup.old event }
    ensures eras { OnOk result (regroup.new ≡ (era_step regroup.old event).eras) }
    ensures answer { IfOk result (λ out. out.answer ≡ (era_step regroup.old event).answer) }
    ensures few { OnOk result (regroup.old.world.events < 2 ^ 62) }
{
    let out = make_counted(regroup, &event);
    drop(event);
    out
}

/// The same. That no further event can be counted is told as want of memory.
fn make_counted(regroup: &mut Regroup, event: &Event) -> Result<Out, AllocError>
    requires may { MayMake regroup.old event.now }
    ensures eras { OnOk result (regroup.new ≡ (era_step regroup.old event.now).eras) }
    ensures answer { IfOk result (λ out. out.answer ≡ (era_step regroup.old event.now).answer) }
    ensures few { OnOk result (regroup.old.world.events < 2 ^ 62) }
{
    if MOST_EVENTS <= regroup.world().events() {
        return Err(AllocError);
    }
    regroup.step(event)
}

/// Makes the deliveries of a drain, and gives their number: none while the group is down.
pub(crate) fn drain(regroup: &mut Regroup) -> Result<u64, AllocError>
    requires led { IsLed regroup.old }
    ensures eras { OnOk result (regroup.new ≡ eras_after regroup.old (draining_unless_down regroup.old.world)) }
    ensures count { IfOk result (λ count. count ≡ length (draining_unless_down regroup.old.world)) }
{
    if regroup.world().is_down() {
        return Ok(0);
    }
    deliver_all(regroup)
}

/// Delivers messages until none is left.
fn deliver_all(regroup: &mut Regroup) -> Result<u64, AllocError>
    requires up { ¬ (IsDown regroup.old.world) }
    requires led { IsLed regroup.old }
    ensures eras { OnOk result (regroup.new ≡ eras_after regroup.old (draining_unless_down regroup.old.world)) }
    ensures count { IfOk result (λ count. count ≡ length (draining_unless_down regroup.old.world)) }
{
    let mut count: u64 = 0;
    'deliveries: while let Some((from, to)) = regroup.world().next_link() {
        deliver(regroup, from, to)?;
        count += 1;
    }
    Ok(count)
}

/// Delivers the first message of a link.
fn deliver(regroup: &mut Regroup, from: ProcessId, to: ProcessId) -> Result<(), AllocError>
    requires may { MayMake regroup.old (Deliver from to) }
    ensures eras { OnOk result (regroup.new ≡ (era_step regroup.old (Deliver from to)).eras) }
    ensures few { OnOk result (regroup.old.world.events < 2 ^ 62) }
{
    make(regroup, Event::Deliver { from, to })?;
    Ok(())
}
