ghost use Rattle.std.specs.Prelude.{◌≡◌, OnOk, OnErr, IfOk};
ghost use Rattle.group_run.specs.Meaning.{IsDown};
ghost use Rattle.group_eras.specs.Carry.{read_all};
ghost use Rattle.group_regroup.specs.Items.{AreWithin, item_loads, parcels_as};
ghost use Rattle.group_regroup.specs.Parts.{IsPart};

use crate::getting::get;
use crate::items::{Item, Parcel};
use group_core::World;
use std::alloc::{AllocError, Global};

/// Reads the values of items, one after the other. After want of memory the first events stand.
pub(crate) fn read_all(
    alloc: Global,
    world: &mut World,
    items: Vec<Item>,
) -> Result<Vec<Parcel>, AllocError>
    requires up { ¬ (IsDown world.old) }
    requires within { AreWithin world.old.shape.k items.items }
    ensures world { OnOk result (world.new ≡ (read_all world.old (item_loads items.items)).world) }
    ensures parcels { IfOk result (λ parcels. parcels_as parcels.items
        ≡ (read_all world.old (item_loads items.items)).parcels) }
    ensures err { OnErr result (IsPart world.old (read_all world.old (item_loads items.items)).events world.new) }
{
    let mut parcels = Vec::new(alloc);
    'items: for item in items {
        let value = get(world, item.partition, &item.key)?;
        parcels.push(Parcel { item, value })?;
    }
    Ok(parcels)
}
