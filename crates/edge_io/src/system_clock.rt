ghost use Rattle.std.specs.Prelude.{◌≡◌, None};

use crate::clock::Clock;
use std::time;

const LATEST: u64 = 1 << 62;

/// The machine's clock, in seconds since 1970: 0 where it fails, and 2^62 where it is later.
/// What it reads is trusted.
#[derive(Drop)]
pub struct SystemClock<C> {
    clock: C,
}

impl<C> SystemClock<C> {
    /// Reads the time from `clock`, the runtime value.
    pub fn new(clock: C) -> SystemClock<C>
        ensures { result ≡ record { clock = clock } }
    {
        SystemClock { clock }
    }
}

impl<C: time::Clock + Sync> Clock for SystemClock<C> {
    ghost moment = { λ _. None };

    fn now(&self) -> u64 {
        match self.clock.since_1970() {
            Ok(time) => time.as_secs().min(LATEST),
            Err(_) => 0,
        }
    }
}
