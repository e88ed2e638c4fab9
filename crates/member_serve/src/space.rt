use crate::callers::Callers;
use crate::report::Report;
use crate::serving::Serving;
use crate::telling::tell_no_space;

/// How long a person isn't told again that there is no space, in milliseconds.
const QUIET: u64 = 60_000;

impl<R, W: Report, G: Callers> Serving<'_, R, W, G> {
    /// Tells that there was no space for values, at most once a minute.
    pub(crate) fn tell_space(&mut self) {
        let count = self.ended_for_space();
        if count == self.told_space.count || self.now < self.told_space.next {
            return;
        }
        let more = count.saturating_sub(self.told_space.count);
        tell_no_space(self.alloc, self.report, more);
        let next = self.now.saturating_add(QUIET);
        self.told_space = ToldSpace { count, next };
    }
}

/// Of how many calls that found no space a person was told, and from when on one is told of more.
#[derive(Clone, Copy)]
pub(crate) struct ToldSpace {
    count: u64,
    next: u64,
}

impl ToldSpace {
    /// A person was told of none.
    pub(crate) fn new() -> ToldSpace {
        ToldSpace { count: 0, next: 0 }
    }
}
