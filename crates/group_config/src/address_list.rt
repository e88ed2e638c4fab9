use crate::address::Address;
use std::alloc::{AllocError, Global};
use std::marker::Model;

/// Addresses in their order. Contracts see them as a list.
#[derive(Drop)]
pub struct AddressList {
    addresses: Vec<Address>,
}

impl Model for AddressList {
    ghost use Rattle.std.specs.Prelude.{ℕ, List};

    ghost Value = { List (List ℕ) };

    ghost view = { λ l. l.addresses.items };
}

impl AddressList {
    ghost use Rattle.std.specs.Prelude.{◌≡◌, ◌++◌, ◌∷◌, [], OnOk};

    /// No address yet.
    pub(crate) fn new(alloc: Global) -> AddressList
        ensures { result ≡ [] }
    {
        AddressList {
            addresses: Vec::new(alloc),
        }
    }

    /// One more behind the others.
    pub(crate) fn push(&mut self, address: Address) -> Result<(), AllocError>
        ensures { OnOk result (self.new ≡ self.old ++ address ∷ []) }
    {
        self.addresses.push(address)?;
        Ok(())
    }

    /// The addresses.
    pub fn as_slice(&self) -> &[Address]
        ensures { result.now ≡ self.now }
    {
        self.addresses.as_slice()
    }
}
