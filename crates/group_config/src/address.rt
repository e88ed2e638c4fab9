use std::alloc::{AllocError, Global};
use std::marker::Model;

/// Where a group is served: a text of 1 to 255 bytes, which contracts see as the list of its bytes.
#[derive(Drop)]
pub struct Address {
    text: String,
}

impl Model for Address {
    ghost use Rattle.std.specs.Prelude.{ℕ, List, string_bytes};

    ghost Value = { List ℕ };

    ghost view = { λ a. string_bytes a.text };
}

impl Address {
    ghost use Rattle.std.specs.Prelude.{◌≡◌, IfOk};

    /// A copy of this text.
    pub(crate) fn new(alloc: Global, text: &str) -> Result<Address, AllocError>
        ensures { IfOk result (λ a. a ≡ text.now) }
    {
        Ok(Address {
            text: String::from_str(alloc, text)?,
        })
    }

    /// The text.
    pub fn as_str(&self) -> &str
        ensures { result.now ≡ self.now }
    {
        self.text.as_str()
    }
}
