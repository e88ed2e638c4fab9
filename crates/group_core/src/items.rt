ghost use Rattle.std.specs.Prelude.{◌≡◌, ◌<◌, ℕ, IfOk};
ghost use Rattle.group_types.specs.Names.{IsProcess, of_rank};
ghost use Rattle.group_run.specs.Meaning.{Heads, IsDown, IsDrained};
ghost use Rattle.group_run.specs.Replica.{Items};
ghost use Rattle.group_core.specs.Items.{ListsItems, heads_of};

use crate::world::World;
use group_types::{Key, Partition, ProcessId};
use item_index::Slot;
use std::alloc::{AllocError, Global};

/// An item without its value: `len` is how many bytes the value has, and `until` the second at which the item
/// ends, if it ends.
#[derive(Debug, Drop, PartialEq, Eq)]
pub struct ItemHead {
    pub key: Key,
    pub len: u32,
    pub flags: u32,
    pub until: Option<u64>,
}

impl World {
    /// The settled items of a partition's head in the order of keys, without their values, where nothing is on
    /// its way and the group isn't down.
    pub fn items(&self, partition: Partition) -> Result<Vec<ItemHead>, AllocError>
        requires partition { partition.0 < self.now.shape.k }
        requires drained { IsDrained self.now }
        requires up { ¬ (IsDown self.now) }
        ensures { IfOk result (λ list. ListsItems self.now partition.0 list.items) }
    {
        let head = self.nodes.node(self.head(partition));
        let items = head.replica(partition).items()?;
        without_values(self.nodes.alloc, items)
    }

    // The process that heads a partition: the living one of lowest rank.
    fn head(&self, partition: Partition) -> ProcessId
        requires partition { partition.0 < self.now.shape.k }
        requires drained { IsDrained self.now }
        requires up { ¬ (IsDown self.now) }
        ensures heads { (r : ℕ) × Heads self.now partition.0 r × (result ≡ of_rank partition.0 r) }
        ensures process { IsProcess self.now.shape result }
    {
        self.run();
        let data = ProcessId::DataNode(partition.0);
        if !self.is_dead(data) {
            return data;
        }
        'ranks: for i in 0..self.shape().m() {
            let parity = ProcessId::ParityNode(i);
            if !self.is_dead(parity) {
                return parity;
            }
        }
        unreachable!()
    }
}

fn without_values(alloc: Global, items: Vec<(Key, Slot)>) -> Result<Vec<ItemHead>, AllocError>
    ensures { IfOk result (λ list. list.items ≡ heads_of items.items) }
{
    let mut list = Vec::with_capacity(alloc, items.len())?;
    'items: for (key, slot) in items {
        list.push(ItemHead {
            key,
            len: slot.len,
            flags: slot.flags,
            until: slot.until,
        })?;
    }
    Ok(list)
}
