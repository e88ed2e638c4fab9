use crate::names::name_at;
use crate::report::WatchReport;
use crate::watching::Watching;
use watch_rules::{count_living, next_dead};

impl<R, W: WatchReport> Watching<'_, R, W> {
    /// Sees who is to be dead next, where etcd has answered for long enough, and enough members have lived for as long:
    /// those that were cut off with others come back one after another.
    pub(crate) fn judge(&mut self) {
        self.next = None;
        let shape = self.settings.shape;
        let (k, m) = (shape.k() as usize, shape.m() as usize);
        if count_living(self.members.as_slice()) < k {
            self.trust.begin_anew(self.now);
        }
        if self.trust.is_settled(self.now) {
            self.next = next_dead(k, m, self.members.as_slice());
        }
    }

    /// Tells that the member stands in etcd.
    pub(crate) fn tell_alive(&self) {
        let name = name_at(self.settings, self.settings.own as usize);
        if let Ok(text) = format!(in self.alloc; "{name} is alive in etcd") {
            self.report.note(text.as_str());
        }
    }

    /// Tells that one more is dead.
    pub(crate) fn tell_condemned(&self) {
        if let Some(x) = self.next {
            let name = name_at(self.settings, x);
            if let Ok(text) = format!(in self.alloc;
                "{name} was seen and isn't alive: it is dead now"
            ) {
                self.report.warn(text.as_str());
            }
        }
    }

    /// Tells that etcd didn't answer for a time.
    pub(crate) fn tell_gap(&self, gap: u64) {
        if let Ok(text) = format!(in self.alloc;
            "etcd didn't answer for {gap} ms: nobody more is dead for 10 s"
        ) {
            self.report.warn(text.as_str());
        }
    }
}
