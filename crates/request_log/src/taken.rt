ghost use Rattle.std.specs.Prelude.{◌≡◌};

use std::marker::Model;

/// Updates that are taken over or handed back, which contracts see as a list.
#[derive(Debug, Drop)]
pub struct Taken<U> {
    updates: Vec<U>,
}

impl<U> Model for Taken<U> {
    ghost use Rattle.std.specs.Prelude.{List};

    ghost Value = { List U };

    ghost view = { λ taken. taken.updates.items };
}

impl<U> Taken<U> {
    /// The list of these updates, without a copy.
    pub fn new(updates: Vec<U>) -> Self
        ensures { result ≡ updates.items }
    {
        Self { updates }
    }

    /// The updates in order.
    pub fn as_slice(&self) -> &[U]
        ensures { result.now ≡ self.now }
    {
        &self.updates
    }

    /// The updates again as a vector, without a copy.
    pub fn into_vec(self) -> Vec<U>
        ensures { result.items ≡ self }
    {
        self.updates
    }
}
