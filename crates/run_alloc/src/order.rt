// Runs, and the two orders in which they are kept.
ghost use Rattle.std.specs.Prelude.{◌≡◌};
ghost use Rattle.run_alloc.specs.Order.{order_key};

/// The `len` addresses from `at` on.
#[derive(Clone, Copy, Debug, PartialEq, Eq)]
pub struct Run {
    pub at: u32,
    pub len: u32,
}

/// What runs are ordered by: their address, or their length and then their address.
#[derive(Clone, Copy, Debug, PartialEq, Eq)]
pub enum Order {
    Address,
    Length,
}

impl Order {
    /// The number by which a run is ordered.
    pub fn rank(self, run: Run) -> u64
        ensures { result ≡ order_key self run }
    {
        match self {
            Order::Address => u64::from(run.at),
            Order::Length => u64::from(run.len) * (1 << 32) + u64::from(run.at),
        }
    }
}
