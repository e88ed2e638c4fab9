use crate::lease::Lease;
use crate::names::{has_word, name_at};
use crate::report::WatchReport;
use crate::watching::Watching;
use etcd_words::{Kept, entries_in};
use std::alloc::AllocError;
use watch_rules::Standing;

/// How often etcd is looked at, in milliseconds, where nothing changes.
const LOOKING: u64 = 300;

impl<R, W: WatchReport> Watching<'_, R, W> {
    /// Takes what etcd keeps of the group, and judges.
    pub(crate) fn take_look(&mut self, body: &[u8]) -> bool {
        let Some(kept) = entries_in(self.alloc, body) else {
            return false;
        };
        if self.keep(&kept).is_err() {
            return false;
        }
        self.look_due = self.now.saturating_add(LOOKING);
        self.has_looked = true;
        if let Some(gap) = self.trust.note(self.now, self.watch.seconds) {
            self.tell_gap(gap);
        }
        self.judge();
        true
    }

    // Keeps what etcd keeps.
    fn keep(&mut self, kept: &Kept) -> Result<(), AllocError> {
        self.dead.clear();
        self.revision = 0;
        if let Some(entry) = kept.find(self.keys.dead.as_str()) {
            self.dead.push_str(entry.value())?;
            self.revision = entry.revision();
        }
        self.see_own(kept)?;
        'members: for x in 0..self.members.len() {
            let standing = self.standing(kept, x)?;
            if let Some(place) = self.members.get_mut(x) {
                *place = standing;
            }
        }
        Ok(())
    }

    // Sees under which lease the own member stands: it may be one of another that watches it, which both ask for again.
    fn see_own(&mut self, kept: &Kept) -> Result<(), AllocError> {
        let own = self.settings.own as usize;
        let alive = self.keys.alive(name_at(self.settings, own))?;
        match kept.find(alive.as_str()) {
            Some(entry) => self.take_found(entry.lease()),
            None => self.lease.holds = false,
        }
        Ok(())
    }

    fn take_found(&mut self, id: Option<u64>) {
        if !self.lease.holds {
            self.tell_alive();
        }
        if !self.lease.holds || self.lease.id != id {
            self.lease = Lease::found(id, self.now, self.watch.seconds);
        }
    }

    // What etcd keeps of a member.
    fn standing(&self, kept: &Kept, x: usize) -> Result<Standing, AllocError> {
        let name = name_at(self.settings, x);
        let seen = self.keys.seen(name)?;
        let alive = self.keys.alive(name)?;
        Ok(Standing {
            seen: kept.find(seen.as_str()).is_some(),
            alive: kept.find(alive.as_str()).is_some(),
            dead: has_word(self.dead.as_str(), name),
        })
    }
}
