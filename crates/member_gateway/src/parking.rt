use group_calls::{Answer, Cause};
use group_types::{CALLERS, Partition};
use head_service::Settlement;
use std::alloc::{AllocError, Global};

/// What a parked request waits for.
#[derive(Clone, Copy, PartialEq, Eq)]
pub(crate) enum Reason {
    /// It wasn't treated yet.
    New,
    /// An update of a partition is to settle.
    Pending(Partition, u64),
    /// A death is to be taken.
    Moved,
    /// Something is to settle or to be acknowledged, or a death to be taken.
    NotYet,
    /// A block, a row or a mark is to come, or a death to be taken.
    Block,
}

/// What lets parked requests go on.
#[derive(Clone, Copy)]
pub(crate) enum Event {
    /// An update of a partition settled.
    Settled(Partition, u64),
    /// An update, or that a head took over, was acknowledged.
    Acknowledged,
    /// A block, a row or a mark came.
    Block,
    /// A death was taken.
    Death,
}

/// A parked request: what it waits for, unless it can go on.
#[derive(Clone, Copy)]
struct Parked {
    reason: Reason,
    can_go_on: bool,
}

/// Beside the requests that a member has parked: what each waits for. And the callers that were told that a block has to
/// be rebuilt: what they ask next waits for one.
#[derive(Drop)]
pub(crate) struct Parking {
    list: Vec<Parked>,
    blocked: Vec<bool>,
    some_can: bool,
}

impl Parking {
    pub(crate) fn new(alloc: Global) -> Result<Parking, AllocError> {
        Ok(Parking {
            list: Vec::with_capacity(alloc, CALLERS as usize)?,
            blocked: vec![in alloc; false; CALLERS as usize]?,
            some_can: false,
        })
    }

    /// Whether a request can go on.
    pub(crate) fn some_can(&self) -> bool {
        self.some_can
    }

    /// Those that can go on are about to be treated.
    pub(crate) fn begin_pass(&mut self) {
        self.some_can = false;
    }

    /// The pass was left before its end.
    pub(crate) fn leave_pass(&mut self) {
        self.some_can = true;
    }

    /// Whether the request at a place can go on.
    pub(crate) fn can_go_on(&self, place: usize) -> bool {
        self.list.get(place).is_some_and(|parked| parked.can_go_on)
    }

    /// Makes room for a request.
    pub(crate) fn reserve(&mut self) -> Result<(), AllocError> {
        self.list.reserve(1)?;
        Ok(())
    }

    /// A request of a caller is parked, behind the others, for which there is room.
    pub(crate) fn push(&mut self, caller: u32) {
        let is_blocked = self.blocked.get(caller as usize).copied() == Some(true);
        let reason = if is_blocked {
            Reason::Block
        } else {
            Reason::New
        };
        let can_go_on = !is_blocked;
        let _ = self.list.push(Parked { reason, can_go_on });
        self.some_can |= can_go_on;
    }

    /// The request at a place was treated.
    pub(crate) fn remove(&mut self, place: usize) {
        if place < self.list.len() {
            let _ = self.list.remove(place);
        }
    }

    /// The request at a place came too early, by this answer. Those behind it that waited for the same number wait for what
    /// it now waits for.
    pub(crate) fn wait_on(&mut self, place: usize, answer: &Answer) {
        let reason = reason_of(answer);
        let Some(before) = self.list.get(place).map(|parked| parked.reason) else {
            return;
        };
        self.rest(place, reason);
        if !matches!(before, Reason::Pending(..)) || !matches!(reason, Reason::Pending(..)) {
            return;
        }
        'behind: for other in place..self.list.len() {
            if self.waited_for(other, before) {
                self.rest(other, reason);
            }
        }
    }

    /// A caller was told that a block has to be rebuilt.
    pub(crate) fn block(&mut self, caller: u32) {
        if let Some(blocked) = self.blocked.get_mut(caller as usize) {
            *blocked = true;
        }
    }

    /// What waited for these updates, which settled, can go on.
    pub(crate) fn settle(&mut self, settled: &[Settlement]) {
        'settled: for due in settled {
            self.wake(Event::Settled(due.partition, due.update.number));
        }
    }

    /// What waited for this can go on.
    pub(crate) fn wake(&mut self, event: Event) {
        if matches!(event, Event::Block | Event::Death) {
            self.blocked.fill(false);
        }
        'parked: for place in 0..self.list.len() {
            if let Some(parked) = self.list.get_mut(place) {
                if !parked.can_go_on && goes_on(parked.reason, event) {
                    parked.can_go_on = true;
                    self.some_can = true;
                }
            }
        }
    }

    // Whether the request at a place waited for this, and can go on.
    fn waited_for(&self, place: usize, reason: Reason) -> bool {
        match self.list.get(place) {
            Some(parked) => parked.can_go_on && parked.reason == reason,
            None => false,
        }
    }

    fn rest(&mut self, place: usize, reason: Reason) {
        if let Some(parked) = self.list.get_mut(place) {
            parked.reason = reason;
            parked.can_go_on = false;
        }
    }
}

// Whether a request that waits can go on by what happened.
fn goes_on(reason: Reason, event: Event) -> bool {
    match (reason, event) {
        (_, Event::Death) => true,
        (Reason::Block, Event::Block) => true,
        (Reason::NotYet, Event::Settled(..)) => true,
        (Reason::NotYet, Event::Acknowledged) => true,
        (Reason::Pending(of, last), Event::Settled(partition, number)) => {
            of == partition && last <= number
        }
        _ => false,
    }
}

// What a request waits for that came too early.
fn reason_of(answer: &Answer) -> Reason {
    match answer {
        Answer::Retry(Cause::Pending { partition, number }) => Reason::Pending(*partition, *number),
        Answer::NotYet => Reason::NotYet,
        _ => Reason::Moved,
    }
}
