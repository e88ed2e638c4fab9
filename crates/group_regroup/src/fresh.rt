ghost use Rattle.std.specs.Prelude.{◌≡◌, ◌+◌, OnOk, OnErr, IfOk};
ghost use Rattle.group_run.specs.Meaning.{IsDown, count_logged};
ghost use Rattle.group_run.specs.World.{opening, world_after};
ghost use Rattle.group_eras.specs.Carry.{reading, setting};
ghost use Rattle.group_eras.specs.Items.{loads};
ghost use Rattle.group_types.specs.Shape.{IsShape};
ghost use Rattle.group_types.specs.Lists.{at};
ghost use Rattle.group_regroup.specs.Carrying.{IsFresh, StandFor, bases_after};
ghost use Rattle.group_regroup.specs.Items.{AreAllWithin, AreWithin, parcels_as};
ghost use Rattle.group_regroup.specs.Parts.{IsPart};

use crate::changing::{Lowered, base_of};
use crate::ending::{told_log, updates};
use crate::items::{Item, Parcel};
use crate::reading::read_all;
use crate::setting::set_all;
use group_calls::Entry;
use group_core::World;
use group_types::Shape;
use std::alloc::{AllocError, Global};

/// What stands behind an era that ends: a group with its items, the base of each partition, and its log as it is told.
#[derive(Drop)]
pub(crate) struct Fresh {
    pub(crate) world: World,
    pub(crate) bases: Vec<u64>,
    pub(crate) told: Vec<Entry>,
}

/// Reads the items of a world, and sets them in a fresh one. After want of memory the first events of the reading
/// stand.
pub(crate) fn renew(
    alloc: Global,
    world: &mut World,
    bases: &[u64],
    lowered: &[Lowered],
    items: Vec<Item>,
    shape: Shape,
) -> Result<Fresh, AllocError>
    requires up { ¬ (IsDown world.old) }
    requires loads { StandFor items.items (loads world.old) }
    requires within { AreWithin world.old.shape.k items.items }
    requires shape { IsShape shape }
    requires partitions { shape.k ≡ world.old.shape.k }
    ensures world { OnOk result (world.new ≡ (reading world.old).world) }
    ensures fresh { IfOk result (IsFresh (reading world.old).world bases.now lowered.now shape
        (reading world.old).parcels) }
    ensures err { OnErr result (IsPart world.old (reading world.old).events world.new) }
{
    let parcels = read_all(alloc, world, items)?;
    fill(alloc, world, bases, lowered, parcels, shape)
}

/// Sets items in a fresh world, and tells what stands beside it.
fn fill(
    alloc: Global,
    world: &World,
    bases: &[u64],
    lowered: &[Lowered],
    parcels: Vec<Parcel>,
    shape: Shape,
) -> Result<Fresh, AllocError>
    requires shape { IsShape shape }
    requires within { AreAllWithin shape.k parcels.items }
    ensures { IfOk result (IsFresh world.now bases.now lowered.now shape (parcels_as parcels.items)) }
{
    let told = told_log(alloc, bases, world.shape().k(), lowered, world.log())?;
    let bases = next_bases(alloc, world, bases)?;
    let world = filled(alloc, shape, parcels)?;
    Ok(Fresh { world, bases, told })
}

/// A fresh world in which items are set.
fn filled(alloc: Global, shape: Shape, parcels: Vec<Parcel>) -> Result<World, AllocError>
    requires shape { IsShape shape }
    requires within { AreAllWithin shape.k parcels.items }
    ensures { IfOk result (λ world. world ≡ world_after (opening shape)
        (setting (opening shape) (parcels_as parcels.items))) }
{
    let mut world = World::new(alloc, shape)?;
    set_all(&mut world, parcels)?;
    Ok(world)
}

/// The bases behind a world. A base of more than 64 bits is told as want of memory.
fn next_bases(alloc: Global, world: &World, bases: &[u64]) -> Result<Vec<u64>, AllocError>
    ensures { IfOk result (λ next. next.items ≡ bases_after world.now bases.now) }
{
    let mut next = Vec::new(alloc);
    'partitions: for partition in 0..world.shape().k() {
        let base = next_base(world, bases, partition)?;
        next.push(base)?;
    }
    Ok(next)
}

fn next_base(world: &World, bases: &[u64], partition: u32) -> Result<u64, AllocError>
    ensures { IfOk result (λ next. next ≡ at 0 bases.now partition + count_logged world.now partition) }
{
    let more = updates_in(world, partition);
    sum(base_of(bases, partition), more as u64)
}

/// How many updates of a partition a world's log has.
fn updates_in(world: &World, partition: u32) -> usize
    ensures { result ≡ count_logged world.now partition }
{
    updates(world.shape().k(), partition, world.log())
}

fn sum(base: u64, more: u64) -> Result<u64, AllocError>
    ensures { IfOk result (λ sum. sum ≡ base + more) }
{
    base.checked_add(more).ok_or(AllocError)
}
