use crate::callers::Callers;
use crate::names::{MOST_MEMBERS, has};
use crate::report::Report;
use crate::serving::Serving;
use crate::telling::{tell_condemned, tell_taken};

impl<R, W: Report, G: Callers> Serving<'_, R, W, G> {
    /// Tells who was said to be dead since the last turn, and whose deaths were taken.
    pub(crate) fn tell_deaths(&mut self) {
        let (condemned, taken) = (self.condemned(), self.taken());
        'members: for x in 0..MOST_MEMBERS {
            if has(condemned, x) && !has(self.told.condemned, x) {
                tell_condemned(self.alloc, self.report, self.settings, x);
            }
            if has(taken, x) && !has(self.told.taken, x) {
                tell_taken(self.alloc, self.report, self.settings, x);
            }
        }
        self.told = ToldDeaths { condemned, taken };
    }
}

/// The sets of members whose deaths a person was told of.
#[derive(Clone, Copy, Debug)]
pub(crate) struct ToldDeaths {
    condemned: u32,
    taken: u32,
}

impl ToldDeaths {
    /// A person was told of none.
    pub(crate) fn new() -> ToldDeaths {
        ToldDeaths {
            condemned: 0,
            taken: 0,
        }
    }
}
