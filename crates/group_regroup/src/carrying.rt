ghost use Rattle.std.specs.Prelude.{◌≡◌, ◌<◌, ◌≤◌, ◌^◌, ◌++◌, List, All, OnOk, IfOk, IfErr};
ghost use Rattle.group_run.specs.Meaning.{IsDown, IsDrained};
ghost use Rattle.group_eras.specs.Carry.{carried, many_carried};
ghost use Rattle.group_eras.specs.Items.{Load, bytes_in_partition, loads, loads_in};
ghost use Rattle.group_eras.specs.Promise.{HasCarried};
ghost use Rattle.group_eras.specs.Refusal.{CanCarry, IsRefused, IsSuccessor};
ghost use Rattle.group_regroup.specs.Carrying.{IsLeftByFault, StandFor};
ghost use Rattle.group_regroup.specs.Items.{AreWithin, IsLongFault};

use crate::fresh::renew;
use crate::items::Item;
use crate::loading::load;
use crate::regroup::Regroup;
use group_core::World;
use group_eras::CarryFault;
use group_types::{Partition, Shape};
use std::alloc::Global;

impl Regroup {
    /// Carries all items of the current world into a fresh one of this shape, and gives how many they are: each with
    /// its flags, value and until, and with a number above all earlier ones. Each fault but want of memory comes where
    /// it is true, and leaves everything as it was; after want of memory the old world stands, in which some of the
    /// items were read.
    pub fn carry(&mut self, shape: Shape) -> Result<u64, CarryFault>
        requires successor { IsSuccessor self.old.world shape }
        requires events { self.old.world.events < 2 ^ 58 }
        requires bases { All (λ base. base < 2 ^ 62) self.old.bases }
        ensures eras { OnOk result (self.new ≡ carried self.old shape) }
        ensures many { IfOk result (λ many. many ≡ many_carried self.old) }
        ensures can { OnOk result (CanCarry self.old.world shape) }
        ensures kept { OnOk result (HasCarried self.old shape) }
        ensures fault { IfErr result (IsRefused self.old.world shape) }
        ensures left { IfErr result (IsLeftByFault self.old self.new) }
    {
        self.world.run();
        let items = match loads(self.alloc, &self.world, shape) {
            Ok(items) => items,
            Err(fault) => return Err(fault),
        };
        if self.past.reserve(1).is_err() {
            return Err(CarryFault::Want);
        }
        let many = items.len() as u64;
        let fresh = renew(
            self.alloc,
            &mut self.world,
            &self.bases,
            &self.lowered,
            items,
            shape,
        );
        match fresh {
            Err(_) => Err(CarryFault::Want),
            Ok(fresh) => {
                self.world = fresh.world;
                self.bases = fresh.bases;
                self.past.push_reserved(fresh.told);
                self.lowered.clear();
                Ok(many)
            }
        }
    }
}

/// The items that are carried, where they may be.
fn loads(alloc: Global, world: &World, shape: Shape) -> Result<Vec<Item>, CarryFault>
    requires partitions { shape.k ≡ world.now.shape.k }
    ensures can { OnOk result (CanCarry world.now shape) }
    ensures items { IfOk result (λ items. StandFor items.items (loads world.now)) }
    ensures within { IfOk result (λ items. AreWithin world.now.shape.k items.items) }
    ensures fault { IfErr result (IsRefused world.now shape) }
{
    world.run();
    if world.is_down() {
        return Err(CarryFault::Down);
    }
    if !world.is_drained() {
        return Err(CarryFault::NotDrained);
    }
    loads_at_rest(alloc, world, shape)
}

/// The same in a world at rest: those of each partition have room.
fn loads_at_rest(alloc: Global, world: &World, shape: Shape) -> Result<Vec<Item>, CarryFault>
    requires up { ¬ (IsDown world.now) }
    requires drained { IsDrained world.now }
    ensures can { OnOk result (CanCarry world.now shape) }
    ensures items { IfOk result (λ items. StandFor items.items (loads world.now)) }
    ensures within { IfOk result (λ items. AreWithin world.now.shape.k items.items) }
    ensures fault { IfErr result (IsRefused world.now shape) }
{
    let mut items = Vec::new(alloc);
    'partitions: for d in 0..world.shape().k() {
        if let Err(fault) = load_from(&mut items, world, Partition(d), shape.space()) {
            return Err(fault);
        }
    }
    Ok(items)
}

/// Puts those of a partition behind others.
fn load_from(
    items: &mut Vec<Item>,
    world: &World,
    partition: Partition,
    space: u32,
) -> Result<(), CarryFault>
    requires partition { partition.0 < world.now.shape.k }
    requires up { ¬ (IsDown world.now) }
    requires drained { IsDrained world.now }
    ensures items { OnOk result ((xs : List Load) → StandFor items.old.items xs
        → StandFor items.new.items (xs ++ loads_in world.now partition.0)) }
    ensures within { OnOk result (AreWithin world.now.shape.k items.old.items
        → AreWithin world.now.shape.k items.new.items) }
    ensures space { OnOk result (bytes_in_partition world.now partition.0 ≤ space) }
    ensures fault { IfErr result (IsLongFault partition (bytes_in_partition world.now partition.0) space) }
{
    match world.items(partition) {
        Err(_) => Err(CarryFault::Want),
        Ok(heads) => load(items, partition, heads, space),
    }
}
