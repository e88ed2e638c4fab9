ghost use Rattle.std.specs.Prelude.{◌≡◌, ◌==◌};
ghost use Rattle.group_stage.specs.Ended.{IsSeat};
ghost use Rattle.group_stage.specs.Kept.{most_calls};

use crate::stage::RawSeat;

/// The most calls of one seat.
pub const MOST_CALLS: u64 = 18_014_398_509_481_984;

/// A place at a stage, from which one thread calls. It has a caller number of its own.
#[derive(Drop)]
pub struct Seat {
    pub(crate) raw: RawSeat,
    pub(crate) caller: u32,
    pub(crate) calls: u64,
    pub(crate) asks: u64,
    ghost is_seat: { IsSeat raw.me caller calls asks },
}

impl Seat {
    /// Its caller number.
    pub fn caller(&self) -> u32
        ensures { result ≡ self.now.caller }
    {
        self.caller
    }

    /// How often it asked: the events `Ask` among its events.
    pub fn asks(&self) -> u64
        ensures { result ≡ self.now.asks }
    {
        self.asks
    }

    // Whether it has made all its calls.
    pub(crate) fn is_worn(&self) -> bool
        ensures { result ≡ (self.now.calls == most_calls) }
    {
        self.calls == MOST_CALLS
    }

    // The right to step alone.
    pub(crate) fn into_raw(self) -> RawSeat
        ensures { result ≡ self.raw }
    {
        let Seat {
            raw,
            caller: _,
            calls: _,
            asks: _,
        } = self;
        raw
    }
}
