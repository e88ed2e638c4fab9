ghost use Rattle.std.specs.Prelude.{◌≡◌, ◌↔◌, [], length, IsTrue, IfOk};

use bytes::Bytes;
use std::alloc::{AllocError, Global};
use std::marker::Model;

/// The bytes of a value, shared and never changed.
#[derive(Debug, Drop, PartialEq, Eq)]
pub struct Payload {
    bytes: Bytes,
}

impl Model for Payload {
    ghost use Rattle.std.specs.Prelude.{ℕ, List};

    ghost Value = { List ℕ };

    ghost view = { λ p. p.bytes };

    ghost inverse = { λ bytes. record { bytes = bytes } };
}

impl Payload {
    /// A payload of its own with these bytes.
    pub fn of(alloc: Global, bytes: &[u8]) -> Result<Payload, AllocError>
        ensures { IfOk result (λ payload. payload ≡ bytes.now) }
    {
        Ok(Payload {
            bytes: Bytes::copy_from_slice(alloc, bytes)?,
        })
    }

    /// A payload of no bytes. It takes no memory.
    pub fn empty() -> Payload
        ensures { result ≡ [] }
    {
        Payload {
            bytes: Bytes::new(),
        }
    }

    /// A payload that takes the vector over, with no copy of its bytes.
    pub fn from_vec(bytes: Vec<u8>) -> Result<Payload, AllocError>
        ensures { IfOk result (λ payload. payload ≡ bytes.items) }
    {
        Ok(Payload {
            bytes: Bytes::from_vec(bytes)?,
        })
    }

    /// The bytes, in order.
    pub fn bytes(&self) -> &[u8]
        ensures { result.now ≡ self.now }
    {
        self.bytes.as_slice()
    }

    /// How many bytes there are.
    pub fn len(&self) -> usize
        ensures { result ≡ length self.now }
    {
        self.bytes.len()
    }

    pub fn is_empty(&self) -> bool
        ensures { IsTrue result ↔ (length self.now ≡ 0) }
    {
        self.bytes.is_empty()
    }
}

impl Clone for Payload {
    ghost is_clone = { λ payload copy. copy ≡ payload };

    fn clone(&self) -> Result<Payload, AllocError> {
        Ok(Payload {
            bytes: self.bytes.clone()?,
        })
    }
}
