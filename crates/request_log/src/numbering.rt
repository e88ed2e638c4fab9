ghost use Rattle.std.specs.Prelude.{◌≡◌, ℕ};

/// Names the updates that a log holds: the number of each, and the key that it is on.
pub trait Numbering {
    type Item: Drop;

    type Key: Eq;

    ghost number_of: { Self.Item → ℕ };

    ghost key_of: { Self.Item → Self.Key };

    /// The number of the item.
    fn number(item: &Self::Item) -> u64
        ensures { result ≡ number_of item.now };

    /// The key that the item is on.
    fn key(item: &Self::Item) -> &Self::Key
        ensures { result.now ≡ key_of item.now };
}
