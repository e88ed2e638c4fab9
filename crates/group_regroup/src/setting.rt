ghost use Rattle.std.specs.Prelude.{◌≡◌, ◌<◌, All, OnOk, IfOk};
ghost use Rattle.group_run.specs.Meaning.{IsDown};
ghost use Rattle.group_run.specs.World.{step, world_after};
ghost use Rattle.group_eras.specs.Carry.{drained, expiry_of, set_of, setting};
ghost use Rattle.group_regroup.specs.Items.{AreAllWithin, parcel_as, parcels_as};
ghost use Rattle.group_regroup.specs.Parts.{MayAsk};

use crate::drain::{drain, make};
use crate::getting::CARRIER;
use crate::items::Parcel;
use group_calls::Event;
use group_core::World;
use group_types::ProcessId;
use memc_table::{Act, Op, values_are_bytes};
use std::alloc::AllocError;

/// Sets items in a fresh group, one after the other, and drains after each.
pub(crate) fn set_all(world: &mut World, parcels: Vec<Parcel>) -> Result<(), AllocError>
    requires up { ¬ (IsDown world.old) }
    requires within { AreAllWithin world.old.shape.k parcels.items }
    ensures { OnOk result (world.new ≡ world_after world.old (setting world.old (parcels_as parcels.items))) }
{
    'parcels: for parcel in parcels {
        set(world, parcel)?;
    }
    Ok(())
}

/// Sets one item, and drains.
fn set(world: &mut World, parcel: Parcel) -> Result<(), AllocError>
    requires up { ¬ (IsDown world.old) }
    requires within { parcel.item.partition.0 < world.old.shape.k }
    ensures up { OnOk result (¬ (IsDown world.new)) }
    ensures world { OnOk result (world.new ≡ drained (step world.old (set_of (parcel_as parcel))).world) }
{
    let event = event_of(parcel)?;
    set_event(world, event)
}

/// The same by an event.
fn set_event(world: &mut World, event: Event) -> Result<(), AllocError>
    requires may { MayAsk world.old event }
    requires up { ¬ (IsDown world.old) }
    ensures up { OnOk result (¬ (IsDown world.new)) }
    ensures world { OnOk result (world.new ≡ drained (step world.old event).world) }
{
    make(world, event)?;
    drain(world)
}

/// The set of an item at its data process.
fn event_of(parcel: Parcel) -> Result<Event, AllocError>
    ensures event { IfOk result (λ event. event ≡ set_of (parcel_as parcel)) }
    ensures bytes { IfOk result (λ _. All (λ b. b < 256) parcel.value) }
{
    let expiry = expiry(parcel.item.until)?;
    let Parcel { item, value } = parcel;
    let act = Act::Set {
        key: item.key,
        flags: item.flags,
        expiry,
        value,
    };
    values_are_bytes(&act);
    Ok(Event::Ask {
        caller: CARRIER,
        op: Op::new(0, act),
        at: ProcessId::DataNode(item.partition.0),
    })
}

/// The exptime with which an item has this until at the moment 0.
fn expiry(until: Option<u64>) -> Result<i64, AllocError>
    ensures { IfOk result (λ expiry. expiry ≡ expiry_of until) }
{
    match until {
        None => Ok(0),
        Some(until) => i64::try_from(until).map_err(|_| AllocError),
    }
}
