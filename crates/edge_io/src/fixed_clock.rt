ghost use Rattle.std.specs.Prelude.{◌≡◌, ◌^◌, ◌≤◌, Some};

use crate::clock::Clock;

/// A clock that stands still.
#[derive(Drop)]
pub struct FixedClock {
    moment: u64,
    ghost limit: { moment ≤ 2 ^ 62 },
}

impl FixedClock {
    /// A clock that answers `moment`, a number of seconds that is at most 2^62.
    pub fn new(moment: u64) -> FixedClock
        requires { moment ≤ 2 ^ 62 }
        ensures { ⟦<FixedClock as Clock>⟧.moment result ≡ Some moment }
    {
        FixedClock { moment }
    }
}

impl Clock for FixedClock {
    ghost moment = { λ c. Some c.moment };

    fn now(&self) -> u64 {
        self.moment
    }
}
