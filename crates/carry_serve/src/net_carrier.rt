use crate::carrying::Carrying;
use crate::group::{Group, Head};
use crate::places::Places;
use crate::report::CarryReport;
use carry_words::Carry;
use group_config::{CarryKey, CarrySettings, MemberTable};
use member_machine::{Carrier, CarryEnd};
use mio::{Events, Poll};
use std::alloc::{AllocError, Global};
use std::net::Net;
use std::time;

/// The most events that one wait gives.
const EVENTS: usize = 1_024;

/// How many items may be on their way.
const PLACES: usize = 4_096;

/// Carries over a machine's sockets and clock.
#[derive(Drop)]
pub struct NetCarrier<'a, R, W> {
    alloc: Global,
    rt: &'a R,
    report: &'a W,
}

impl<'a, R, W> NetCarrier<'a, R, W> {
    /// The carrier of this runtime value.
    pub fn new(alloc: Global, rt: &'a R, report: &'a W) -> NetCarrier<'a, R, W> {
        NetCarrier { alloc, rt, report }
    }
}

impl<R: Net, W> NetCarrier<'_, R, W> {
    // A carry before its first turn.
    fn begun<'s>(
        &'s self,
        settings: &'s CarrySettings,
        poll: Poll,
    ) -> Result<Carrying<'s, R, W>, AllocError> {
        let alloc = self.alloc;
        let k = settings.k as usize;
        let events = Events::with_capacity(alloc, EVENTS)?;
        let old = group_of(alloc, "old", &settings.from, k)?;
        let new = group_of(alloc, "new", &settings.to, k)?;
        let carry = Carry::new(alloc, PLACES, settings.k)?;
        let places = Places::new(alloc, PLACES, k)?;
        Ok(Carrying {
            alloc,
            rt: self.rt,
            report: self.report,
            settings,
            poll,
            events,
            old,
            new,
            carry,
            places,
            lanes: Vec::new(alloc),
            pages: Vec::new(alloc),
            listed: 0,
            lasting: 0,
            bytes: 0,
            refusal: String::new(alloc),
            is_full: false,
            now: 0,
            moment: 0,
            moved: 0,
            told: 0,
            next_token: 0,
        })
    }
}

/// One of both groups, of which nothing is known.
fn group_of<'s>(
    alloc: Global,
    title: &'static str,
    members: &'s MemberTable,
    k: usize,
) -> Result<Group<'s>, AllocError> {
    let there = vec![in alloc; false; members.entries().len()]?;
    let nobody: Option<Head> = None;
    let heads = vec![in alloc; nobody; k]?;
    Ok(Group {
        title,
        members,
        there,
        heads,
    })
}

impl<R: Net + time::Clock, W: CarryReport> Carrier for NetCarrier<'_, R, W> {
    ghost use Rattle.std.specs.Prelude.{⊤};

    ghost carried = { λ _ _ _ _. ⊤ };

    fn carry(&mut self, settings: &CarrySettings) -> CarryEnd {
        let Ok(poll) = Poll::new(self.rt) else {
            self.report
                .warn("the system failed at what all connections need");
            return CarryEnd::Stopped;
        };
        match self.begun(settings, poll) {
            Ok(mut carrying) => carrying.run(),
            Err(_) => CarryEnd::Want,
        }
    }

    fn refuse_carry(&self, key: CarryKey) {
        self.report.warn(key.allowed());
    }
}
