// The machine's clock, and one that stands.
use crate::fixtures::same;
use edge_io::{Clock, FixedClock, SystemClock};
use std::io::ErrorKind;
use std::time::Duration;
use std::{io, time};

// Reads this many seconds since 1970, or fails.
#[derive(Drop)]
struct Reading(Option<u64>);

impl time::Clock for Reading {
    fn monotonic(&self) -> io::Result<Duration> {
        Err(ErrorKind::Other.into())
    }

    fn since_1970(&self) -> io::Result<Duration> {
        match self.0 {
            Some(seconds) => Ok(Duration::from_millis(999).saturating_add(Duration::from_secs(
                seconds,
            ))),
            None => Err(ErrorKind::Other.into()),
        }
    }
}

#[test]
fn reads_whole_seconds(rt: HostRuntime) {
    let rows = [
        (None, 0),
        (Some(5), 5),
        (Some(1 << 62), 1 << 62),
        (Some((1 << 62) + 1), 1 << 62),
    ];
    for (reading, seconds) in rows {
        same(&rt, SystemClock::new(Reading(reading)).now(), seconds);
    }
    assert!(rt; SystemClock::new(&rt).now() > 1_700_000_000);
    same(&rt, FixedClock::new(1000).now(), 1000);
}
