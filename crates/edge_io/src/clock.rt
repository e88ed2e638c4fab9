ghost use Rattle.std.specs.Prelude.{◌≡◌, ℕ, ◌^◌, ◌≤◌, Option, IfSome};

/// What time it is, in seconds.
pub trait Clock: Sync {
    // The moment that the clock answers, where it is told.
    ghost moment: { Self → Option ℕ };

    /// The time now: a number of seconds, at most 2^62.
    fn now(&self) -> u64
        ensures limit { result ≤ 2 ^ 62 }
        ensures told { IfSome (moment self.now) (λ t. result ≡ t) };
}
