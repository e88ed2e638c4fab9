ghost use Rattle.std.specs.Prelude.{◌≡◌, IfOk};
ghost use Rattle.std.specs.Result.{IsErrOf};

use crate::key_limits::is_key;
use crate::shared_bytes::SharedBytes;
use std::alloc::{AllocError, Global};
use std::error::Error;
use std::fmt;
use std::marker::Model;

/// Why bytes are no key here.
#[derive(Clone, Copy, Debug, PartialEq, Eq)]
pub enum KeyFault {
    BadKey,
    Want,
}

impl fmt::Display for KeyFault {
    fn fmt<W: fmt::Write>(&self, f: &mut fmt::Formatter<W>) -> fmt::Result {
        f.write_str(match self {
            KeyFault::BadKey => "a key has 1 to 250 bytes, no control characters and no spaces",
            KeyFault::Want => "no memory for a key",
        })
    }
}

impl Error for KeyFault {}

/// A key of memcached: 1 to 250 bytes without control characters and spaces.
#[derive(Debug, Drop, PartialEq, Eq, PartialOrd, Ord, Hash)]
pub struct Key {
    bytes: SharedBytes,
}

impl Model for Key {
    ghost use Rattle.std.specs.Prelude.{ℕ, List};
    ghost use Rattle.group_types.specs.Key.{IsKey};

    ghost Value = { List ℕ };

    ghost view = { λ k. k.bytes };

    ghost invariant = { λ k. IsKey k.bytes };

    ghost inverse = { λ bytes. record { bytes = bytes } };
}

impl Key {
    ghost use Rattle.group_types.specs.Hash.{fnv1a};
    ghost use Rattle.group_types.specs.Key.{IsKey};

    pub fn read(alloc: Global, bytes: &[u8]) -> Result<Key, KeyFault>
        ensures key { IfOk result (λ key. key ≡ bytes.now) }
        ensures within { IfOk result (λ key. IsKey key) }
        ensures bad { IsErrOf result KeyFault.BadKey → ¬ (IsKey bytes.now) }
        ensures refused { ¬ (IsKey bytes.now) → IsErrOf result KeyFault.BadKey }
    {
        if !is_key(bytes) {
            return Err(KeyFault::BadKey);
        }
        match SharedBytes::of(alloc, bytes) {
            Ok(bytes) => Ok(Key { bytes }),
            Err(AllocError) => Err(KeyFault::Want),
        }
    }

    /// The bytes of the key.
    pub fn bytes(&self) -> &[u8]
        ensures value { result.now ≡ self.now }
        ensures within { IsKey self.now }
    {
        self.bytes.as_slice()
    }

    /// FNV-1a of its bytes, which was made with the key.
    pub fn fnv1a(&self) -> u32
        ensures { result ≡ fnv1a self.now }
    {
        self.bytes.fnv1a()
    }
}

impl Clone for Key {
    ghost is_clone = { λ key copy. copy ≡ key };

    fn clone(&self) -> Result<Key, AllocError> {
        Ok(Key {
            bytes: self.bytes.clone()?,
        })
    }
}
