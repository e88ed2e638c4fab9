ghost use Rattle.std.specs.Prelude.{◌≡◌, IfOk};
ghost use Rattle.std.specs.Borrow.{sem};

use std::alloc::{AllocError, Global};
use std::marker::Model;

/// Bytes that have one owner and move from place to place, where a `Payload` is shared.
#[derive(Debug, Drop)]
pub struct ByteList {
    bytes: Vec<u8>,
}

impl Model for ByteList {
    ghost use Rattle.std.specs.Prelude.{ℕ, List};

    ghost Value = { List ℕ };

    ghost view = { λ list. list.bytes.items };
}

impl ByteList {
    ghost use Rattle.group_types.specs.Pieces.{LendsBytes};

    /// A list of its own with these bytes.
    pub fn of(alloc: Global, bytes: &[u8]) -> Result<ByteList, AllocError>
        ensures { IfOk result (λ list. list ≡ bytes.now) }
    {
        let bytes = Vec::from_slice(alloc, bytes)?;
        Ok(ByteList { bytes })
    }

    /// The bytes, in order.
    pub fn bytes(&self) -> &[u8]
        ensures { result.now ≡ self.now }
    {
        &self.bytes
    }

    /// The bytes, to write into; their number stays.
    pub fn bytes_mut(&mut self) -> &mut [u8]
        ensures* writes_back { sem 𝓛 (LendsBytes self.entry result) }
        ensures value { result.now ≡ self.old }
    {
        self.bytes.as_mut_slice()
    }
}

impl From<Vec<u8>> for ByteList {
    ghost from_gives = { λ bytes list. list ≡ bytes.items };

    fn from(bytes: Vec<u8>) -> ByteList {
        ByteList { bytes }
    }
}

impl From<ByteList> for Vec<u8> {
    ghost from_gives = { λ list bytes. bytes.items ≡ list };

    fn from(list: ByteList) -> Vec<u8> {
        list.bytes
    }
}
