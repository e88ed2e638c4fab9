ghost use Rattle.group_config.specs.MemberReading.{HasMembers};

use crate::changes::Changes;
use crate::exchange::Exchange;
use crate::keys::Keys;
use crate::lease::Lease;
use crate::member_wire::MemberWire;
use crate::report::WatchReport;
use crate::trust::Trust;
use crate::watching::Watching;
use group_config::{MemberSettings, WatchSettings};
use member_machine::{MemberEnd, Watcher};
use mio::{Events, Poll};
use std::alloc::{AllocError, Global};
use std::net::Net;
use std::sync::Wait;
use std::time;
use watch_rules::Standing;

/// The most events that one wait gives.
const EVENTS: usize = 64;

/// Watches a member over a machine's sockets and clock.
#[derive(Drop)]
pub struct NetWatcher<'a, R, W> {
    alloc: Global,
    rt: &'a R,
    report: &'a W,
}

impl<'a, R, W> NetWatcher<'a, R, W> {
    /// The watcher of this runtime value.
    pub fn new(alloc: Global, rt: &'a R, report: &'a W) -> NetWatcher<'a, R, W> {
        NetWatcher { alloc, rt, report }
    }
}

impl<R: Net, W> NetWatcher<'_, R, W> {
    // A member before the first turn.
    fn begun<'s>(
        &'s self,
        settings: &'s MemberSettings,
        watch: &'s WatchSettings,
        poll: Poll,
    ) -> Result<Watching<'s, R, W>, AllocError> {
        let alloc = self.alloc;
        let events = Events::with_capacity(alloc, EVENTS)?;
        let keys = Keys::new(alloc, settings)?;
        let members = nobody(alloc, settings.members.entries().len())?;
        Ok(Watching {
            alloc,
            rt: self.rt,
            report: self.report,
            settings,
            watch,
            poll,
            events,
            keys,
            member: MemberWire::new(String::new(alloc), String::new(alloc)),
            exchange: Exchange::new(alloc),
            changes: Changes::new(),
            lease: Lease::none(),
            trust: Trust::none(),
            members,
            dead: String::new(alloc),
            revision: 0,
            next: None,
            at: 0,
            answered: 0,
            is_away: false,
            again: 0,
            has_looked: false,
            look_due: 0,
            now: 0,
        })
    }
}

/// So many members of which nothing is known.
fn nobody(alloc: Global, count: usize) -> Result<Vec<Standing>, AllocError> {
    let unknown = Standing {
        seen: false,
        alive: false,
        dead: false,
    };
    vec![in alloc; unknown; count]
}

impl<R: Net + time::Clock + Wait, W: WatchReport> Watcher for NetWatcher<'_, R, W> {
    ghost use Rattle.std.specs.Prelude.{⊤};

    ghost watched = { λ _ _ _ _ _. ⊤ };

    fn watch(&mut self, settings: &MemberSettings, watch: &WatchSettings) -> MemberEnd {
        let Ok(poll) = Poll::new(self.rt) else {
            return MemberEnd::LinkFault;
        };
        match self.begun(settings, watch, poll) {
            Ok(mut watching) => watching.run(),
            Err(_) => MemberEnd::Want,
        }
    }
}
