ghost use Rattle.std.specs.Prelude.{◌≡◌};

use crate::slot::Slot;
use std::marker::Model;

/// Pairs of a key and its slot, which contracts see as a list.
#[derive(Debug, Drop)]
pub struct SlotList<K> {
    pairs: Vec<(K, Slot)>,
}

impl<K> Model for SlotList<K> {
    ghost use Rattle.std.specs.Prelude.{List};
    ghost use Rattle.item_index.specs.declared.slot.Slot.{Slot};

    ghost Value = { List (K × Slot) };

    ghost view = { λ list. list.pairs.items };
}

impl<K> SlotList<K> {
    /// The list of these pairs, without a copy.
    pub fn new(pairs: Vec<(K, Slot)>) -> Self
        ensures { result ≡ pairs.items }
    {
        Self { pairs }
    }

    /// The pairs in order.
    pub fn as_slice(&self) -> &[(K, Slot)]
        ensures { result.now ≡ self.now }
    {
        &self.pairs
    }

    /// The pairs again as a vector, without a copy.
    pub fn into_vec(self) -> Vec<(K, Slot)>
        ensures { result.items ≡ self }
    {
        self.pairs
    }
}
