ghost use Rattle.std.specs.Prelude.{◌≡◌, ◌<◌, All, IfOk};
ghost use Rattle.memc_table.specs.Act.{act_value};

use group_types::{Key, Payload};
use std::alloc::AllocError;

/// What a call asks of the item on its key, as memcached's protocol has it.
#[derive(Debug, Drop, PartialEq, Eq)]
pub enum Act {
    Get {
        key: Key,
    },
    Set {
        key: Key,
        flags: u32,
        expiry: i64,
        value: Payload,
    },
    Add {
        key: Key,
        flags: u32,
        expiry: i64,
        value: Payload,
    },
    Replace {
        key: Key,
        flags: u32,
        expiry: i64,
        value: Payload,
    },
    Cas {
        key: Key,
        flags: u32,
        expiry: i64,
        cas: u64,
        value: Payload,
    },
    Delete {
        key: Key,
    },
    Touch {
        key: Key,
        expiry: i64,
    },
    Append {
        key: Key,
        value: Payload,
    },
    Prepend {
        key: Key,
        value: Payload,
    },
    Incr {
        key: Key,
        by: u64,
    },
    Decr {
        key: Key,
        by: u64,
    },
}

impl Act {
    ghost use Rattle.std.specs.Prelude.{◌≡◌};
    ghost use Rattle.memc_table.specs.Act.{key_of};

    /// The key that is asked.
    pub fn key(&self) -> &Key
        ensures { result.now ≡ key_of self.now }
    {
        match self {
            Act::Get { key }
            | Act::Set { key, .. }
            | Act::Add { key, .. }
            | Act::Replace { key, .. }
            | Act::Cas { key, .. }
            | Act::Delete { key }
            | Act::Touch { key, .. }
            | Act::Append { key, .. }
            | Act::Prepend { key, .. }
            | Act::Incr { key, .. }
            | Act::Decr { key, .. } => key,
        }
    }
}

impl Clone for Act {
    ghost is_clone = { λ act copy. copy ≡ act };

    fn clone(&self) -> Result<Act, AllocError> {
        match self {
            Act::Get { key } => Ok(Act::Get { key: key.clone()? }),
            Act::Set {
                key,
                flags,
                expiry,
                value,
            } => {
                let (key, value) = both(key, value)?;
                Ok(Act::Set {
                    key,
                    flags: *flags,
                    expiry: *expiry,
                    value,
                })
            }
            Act::Add {
                key,
                flags,
                expiry,
                value,
            } => {
                let (key, value) = both(key, value)?;
                Ok(Act::Add {
                    key,
                    flags: *flags,
                    expiry: *expiry,
                    value,
                })
            }
            Act::Replace {
                key,
                flags,
                expiry,
                value,
            } => {
                let (key, value) = both(key, value)?;
                Ok(Act::Replace {
                    key,
                    flags: *flags,
                    expiry: *expiry,
                    value,
                })
            }
            Act::Cas {
                key,
                flags,
                expiry,
                cas,
                value,
            } => {
                let (key, value) = both(key, value)?;
                Ok(Act::Cas {
                    key,
                    flags: *flags,
                    expiry: *expiry,
                    cas: *cas,
                    value,
                })
            }
            Act::Delete { key } => Ok(Act::Delete { key: key.clone()? }),
            Act::Touch { key, expiry } => {
                let key = key.clone()?;
                Ok(Act::Touch {
                    key,
                    expiry: *expiry,
                })
            }
            Act::Append { key, value } => {
                let (key, value) = both(key, value)?;
                Ok(Act::Append { key, value })
            }
            Act::Prepend { key, value } => {
                let (key, value) = both(key, value)?;
                Ok(Act::Prepend { key, value })
            }
            Act::Incr { key, by } => Ok(Act::Incr {
                key: key.clone()?,
                by: *by,
            }),
            Act::Decr { key, by } => Ok(Act::Decr {
                key: key.clone()?,
                by: *by,
            }),
        }
    }
}

/// Copies of a key and of a value.
fn both(key: &Key, value: &Payload) -> Result<(Key, Payload), AllocError>
    ensures { IfOk result (λ copies. copies ≡ (key.now, value.now)) }
{
    Ok((key.clone()?, value.clone()?))
}

/// The value that an act brings consists of bytes.
pub fn values_are_bytes(act: &Act)
    ensures { All (λ b. b < 256) (act_value act.now) }
{
    match act {
        Act::Set { value, .. } => are_bytes(value.bytes()),
        Act::Add { value, .. } => are_bytes(value.bytes()),
        Act::Replace { value, .. } => are_bytes(value.bytes()),
        Act::Cas { value, .. } => are_bytes(value.bytes()),
        Act::Append { value, .. } => are_bytes(value.bytes()),
        Act::Prepend { value, .. } => are_bytes(value.bytes()),
        Act::Get { .. } => {}
        Act::Delete { .. } => {}
        Act::Touch { .. } => {}
        Act::Incr { .. } => {}
        Act::Decr { .. } => {}
    }
}

fn are_bytes(bytes: &[u8])
    ensures { All (λ b. b < 256) bytes.now }
{
    let _long = bytes.len();
}
