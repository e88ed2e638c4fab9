use std::alloc::{AllocError, Global};
use std::marker::Model;

/// The base of each partition, in their order. Contracts see them as a list.
#[derive(Drop)]
pub struct BaseList {
    bases: Vec<u64>,
}

impl Model for BaseList {
    ghost use Rattle.std.specs.Prelude.{ℕ, List};

    ghost Value = { List ℕ };

    ghost view = { λ l. l.bases.items };
}

impl BaseList {
    ghost use Rattle.std.specs.Prelude.{◌≡◌, ◌++◌, ◌∷◌, [], OnOk};

    /// No base yet.
    pub(crate) fn new(alloc: Global) -> BaseList
        ensures { result ≡ [] }
    {
        BaseList {
            bases: Vec::new(alloc),
        }
    }

    /// One more behind the others.
    pub(crate) fn push(&mut self, base: u64) -> Result<(), AllocError>
        ensures { OnOk result (self.new ≡ self.old ++ base ∷ []) }
    {
        self.bases.push(base)?;
        Ok(())
    }

    /// The bases.
    pub fn as_slice(&self) -> &[u64]
        ensures { result.now ≡ self.now }
    {
        self.bases.as_slice()
    }
}
