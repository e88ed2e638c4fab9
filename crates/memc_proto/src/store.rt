ghost use Rattle.std.specs.Prelude.{◌≡◌};
ghost use Rattle.memc_proto.specs.Store.{act_of};

use group_types::{Key, Payload};
use memc_table::Act;

/// The store commands.
#[derive(Clone, Copy)]
pub enum Verb {
    Set,
    Add,
    Replace,
    Append,
    Prepend,
    Cas,
}

/// The line of a store, whose data block is to follow.
#[derive(Drop, Clone)]
pub struct Store {
    pub verb: Verb,
    pub key: Key,
    pub flags: u32,
    pub expiry: i64,
    /// The bytes of the value.
    pub len: u32,
    /// The item's cas number; 0 where the command has none.
    pub cas: u64,
    pub noreply: bool,
}

/// The call that a store makes of its value. `append` and `prepend` don't use flags and exptime.
pub(crate) fn store_act(store: Store, value: Payload) -> Act
    ensures { result ≡ act_of store value }
{
    let Store {
        verb,
        key,
        flags,
        expiry,
        cas,
        ..
    } = store;
    match verb {
        Verb::Set => Act::Set {
            key,
            flags,
            expiry,
            value,
        },
        Verb::Add => Act::Add {
            key,
            flags,
            expiry,
            value,
        },
        Verb::Replace => Act::Replace {
            key,
            flags,
            expiry,
            value,
        },
        Verb::Append => Act::Append { key, value },
        Verb::Prepend => Act::Prepend { key, value },
        Verb::Cas => Act::Cas {
            key,
            flags,
            expiry,
            cas,
            value,
        },
    }
}
