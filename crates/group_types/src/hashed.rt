ghost use Rattle.std.specs.Prelude.{◌≡◌, IfOk};
ghost use Rattle.group_types.specs.Hash.{fnv1a};

use crate::hash::fnv1a_of;
use std::alloc::{AllocError, Global};
use std::marker::Model;

/// Bytes beside their hash, which is made once.
#[derive(Drop)]
pub(crate) struct Hashed {
    hash: u32,
    bytes: Vec<u8>,
}

impl Model for Hashed {
    ghost use Rattle.std.specs.Prelude.{◌≡◌, ℕ, List};
    ghost use Rattle.group_types.specs.Hash.{fnv1a};

    ghost Value = { List ℕ };

    ghost view = { λ hashed. hashed.bytes.items };

    ghost invariant = { λ hashed. hashed.hash ≡ fnv1a hashed.bytes.items };
}

impl Hashed {
    /// These bytes, in a vector with no room to spare.
    pub(crate) fn of(alloc: Global, bytes: &[u8]) -> Result<Hashed, AllocError>
        ensures { IfOk result (λ hashed. hashed ≡ bytes.now) }
    {
        Ok(Hashed {
            hash: fnv1a_of(bytes),
            bytes: Vec::from_slice(alloc, bytes)?,
        })
    }

    /// FNV-1a of the bytes.
    pub(crate) fn hash(&self) -> u32
        ensures { result ≡ fnv1a self.now }
    {
        self.hash
    }

    /// The bytes, in order.
    pub(crate) fn as_slice(&self) -> &[u8]
        ensures { result.now ≡ self.now }
    {
        &self.bytes
    }
}
