use group_types::Key;
use std::marker::Model;

/// The keys of a `get`, in the order asked.
#[derive(Debug, Drop)]
pub struct KeyList {
    keys: Vec<Key>,
}

impl Model for KeyList {
    ghost use Rattle.std.specs.Prelude.{ℕ, List};

    ghost Value = { List (List ℕ) };

    ghost view = { λ list. list.keys.items };
}

impl KeyList {
    ghost use Rattle.std.specs.Prelude.{◌≡◌};

    /// The keys, in order.
    pub fn keys(&self) -> &[Key]
        ensures { result.now ≡ self.now }
    {
        &self.keys
    }
}

impl From<Vec<Key>> for KeyList {
    ghost use Rattle.std.specs.Prelude.{◌≡◌};

    ghost from_gives = { λ keys list. list ≡ keys.items };

    fn from(keys: Vec<Key>) -> KeyList {
        KeyList { keys }
    }
}
