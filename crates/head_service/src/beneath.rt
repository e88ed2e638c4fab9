ghost use Rattle.std.specs.Prelude.{◌≡◌, ◌+◌, ◌<◌, ◌≤◌, [], ◌∷◌, IfOk, OnErr, OnOk};
ghost use Rattle.group_types.specs.Dimensions.{space_of};
ghost use Rattle.group_run.specs.Applying.{bytes_after};
ghost use Rattle.group_run.specs.Fitting.{Writes};
ghost use Rattle.head_service.specs.Beneath.{IsFound, found_by};
ghost use Rattle.head_service.specs.Paging.{Misses};
ghost use Rattle.head_service.specs.Storage.{MakesReady, StaysReady, Storage};
ghost use Rattle.head_service.specs.Wanting.{IsThere};

use group_calls::Found;
use group_message::Update;
use group_types::{Partition, ProcessId, Run};
use std::alloc::AllocError;

/// What a head of a partition stands on: the bytes of a process.
pub trait Beneath {
    /// The bytes as contracts see them.
    ghost storage: { Self → Storage };

    fn name(&self) -> ProcessId
        ensures { result ≡ (storage self.now).process.name };

    /// How many bytes the space of a partition has.
    fn space(&self) -> u32
        ensures { result ≡ space_of (storage self.now).shape };

    /// The bytes of a run of the partition's space, or the lowest block that has to be rebuilt first.
    fn find(&self, partition: Partition, run: Run) -> Result<Found, AllocError>
        requires partition { partition.0 < (storage self.now).shape.k }
        requires within { run.at + run.len ≤ space_of (storage self.now).shape }
        ensures found { IfOk result (λ found. found ≡ found_by partition.0 (storage self.now) run) }
        ensures whole { IfOk result (IsFound (storage self.now).shape run.len) }
        ensures wanted { OnErr result (IsThere (found_by partition.0 (storage self.now) run)) };

    /// Makes all that adding the update needs, and no page but those of the blocks in which it writes.
    fn reserve(&mut self, partition: Partition, update: &Update) -> Result<(), AllocError>
        requires partition { partition.0 < (storage self.old).shape.k }
        requires writes { Writes (space_of (storage self.old).shape) update.now.body }
        ensures makes { MakesReady (Misses (storage self.old).shape.block update.now.body) (storage self.old)
            (storage self.new) }
        ensures process { (storage self.new).process ≡ (storage self.old).process }
        ensures ready { OnOk result ((storage self.new).is_ready partition.0 update.now) };

    /// Adds the update to the bytes. It takes no memory.
    fn add(&mut self, partition: Partition, update: &Update)
        requires writes { Writes (space_of (storage self.old).shape) update.now.body }
        requires ready { (storage self.old).is_ready partition.0 update.now }
        ensures stays { StaysReady (storage self.old) (storage self.new) }
        ensures process { (storage self.new).process ≡ bytes_after (storage self.old).shape partition.0
            (update.now ∷ []) (storage self.old).process };
}
