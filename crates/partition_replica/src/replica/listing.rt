ghost use Rattle.std.specs.Prelude.{◌≡◌, IfOk};
ghost use Rattle.std.specs.Cmp.Lexicographic.{slice_cmp};
ghost use Rattle.std.specs.Ordering.{nat_cmp};

use super::Replica;
use group_types::Key;
use item_index::Slot;
use std::alloc::AllocError;
use std::cmp::Ordering;

impl Replica {
    /// A copy of the settled items, each key with its slot, in the order of the keys.
    pub fn items(&self) -> Result<Vec<(Key, Slot)>, AllocError>
        ensures { IfOk result (λ items. items.items ≡ self.now.replica.items) }
    {
        let mut items = self.index.entries()?.into_vec();
        items.sort_unstable_by(by_key);
        Ok(items)
    }
}

fn by_key(a: &(Key, Slot), b: &(Key, Slot)) -> Ordering
    ensures { result ≡ slice_cmp nat_cmp a.now.0 b.now.0 }
{
    a.0.cmp(&b.0)
}
