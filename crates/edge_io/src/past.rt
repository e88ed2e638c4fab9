ghost use Rattle.std.specs.Prelude.{◌≡◌, ℕ, List, [], ◌++◌};
ghost use Rattle.std.specs.Borrow.{ftrue};

use std::marker::Model;

/// The bytes that an edge moved so far, or that it was given, which clauses alone read: it takes no memory, and its calls
/// do nothing.
#[derive(Drop)]
pub struct Past {
    pub ghost bytes: { List ℕ },
}

impl Model for Past {
    ghost also_owns = { λ _. ftrue };
}

// It owns nothing.
unsafe impl Send for Past {}

impl Past {
    /// Nothing was moved.
    pub fn new() -> Past
        ensures { result.bytes ≡ [] }
    {
        Past {}
    }

    /// The piece was moved.
    pub fn add(&mut self, _piece: &[u8])
        ensures { self.new.bytes ≡ self.old.bytes ++ _piece.now }
    {}

    /// These bytes were given, and no others.
    pub fn of(bytes: &[u8]) -> Past
        ensures { result.bytes ≡ bytes.now }
    {
        let mut past = Past::new();
        past.add(bytes);
        past
    }
}
