ghost use Rattle.std.specs.Prelude.{None};

use edge_io::Clock;
use std::sync::atomic::{AtomicU64, Ordering};
use std::time::Duration;

/// The latest moment that a clock may answer.
const LATEST: u64 = 1 << 62;

/// The time at which a turn began, in seconds: it stands still until it is set again.
#[derive(Drop)]
pub(crate) struct TurnClock {
    seconds: AtomicU64,
}

impl TurnClock {
    /// A clock that answers 0.
    pub(crate) fn new() -> TurnClock {
        TurnClock {
            seconds: AtomicU64::new(0),
        }
    }

    /// It is so late.
    pub(crate) fn set(&self, time: Duration) {
        self.seconds.store(time.as_secs(), Ordering::SeqCst);
    }
}

impl Clock for TurnClock {
    ghost moment = { λ _. None };

    fn now(&self) -> u64 {
        self.seconds.load(Ordering::SeqCst).min(LATEST)
    }
}
