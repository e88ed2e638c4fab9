use crate::client::{Kind, TestClient, Wanted};
use crate::line::Presence;
use crate::lines::Lines;
use crate::tally::Tally;
use scenario_make::draws::Draws;
use std::alloc::{AllocError, Global};

/// What isn't as it is to be.
#[derive(Clone, Copy, Debug)]
pub(crate) enum Fault {
    /// A client heard what can't be.
    Heard { client: usize, seen: usize },
    /// A client waits for ever.
    Waits { client: usize },
    /// A member does what can't be.
    Misfit { seat: usize },
    /// A member doesn't come to rest.
    Busy { seat: usize },
    /// What was to be so isn't, as this test says.
    Otherwise(u32),
    /// There was no memory.
    Want,
}

/// The most that a counter is raised.
const RAISES: usize = 16_384;

/// The clients of a group's members, what is known of the counters by what they heard, and what chance brings.
#[derive(Drop)]
pub(crate) struct Crowd<'t> {
    pub(crate) alloc: Global,
    lines: &'t [Lines],
    pub(crate) clients: Vec<TestClient>,
    pub(crate) raises: Tally,
    pub(crate) swaps: Tally,
    draws: Draws,
    pub(crate) fault: Option<Fault>,
}

impl<'t> Crowd<'t> {
    /// No clients yet, of members with these connections.
    pub(crate) fn new(
        alloc: Global,
        lines: &'t [Lines],
        number: u64,
    ) -> Result<Crowd<'t>, AllocError> {
        let raises = Tally::new(alloc, RAISES)?;
        let swaps = Tally::new(alloc, RAISES)?;
        Ok(Crowd {
            alloc,
            lines,
            clients: Vec::new(alloc),
            raises,
            swaps,
            draws: Draws::new(number),
            fault: None,
        })
    }

    /// A further client at a member, on this connection. Says which one it is.
    pub(crate) fn join(&mut self, seat: usize, line: usize, kind: Kind) -> usize {
        let number = self.clients.len();
        let key = b'a'.wrapping_add((number % 26) as u8);
        let joined = self
            .clients
            .push(TestClient::new(self.alloc, seat, line, kind, key));
        self.note(joined.is_ok());
        number
    }

    /// A number below a limit.
    pub(crate) fn pick(&mut self, limit: u32) -> u32 {
        if limit == 0 {
            return 0;
        }
        self.draws.draw(limit)
    }

    /// One of so many.
    pub(crate) fn pick_of(&mut self, count: usize) -> usize {
        match u32::try_from(count) {
            Ok(limit) => self.pick(limit) as usize,
            Err(_) => 0,
        }
    }

    /// Some client.
    pub(crate) fn pick_client(&mut self) -> usize {
        let count = self.clients.len();
        self.pick_of(count)
    }

    pub(crate) fn fail(&mut self, fault: Fault) {
        if self.fault.is_none() {
            self.fault = Some(fault);
        }
    }

    pub(crate) fn expect(&mut self, holds: bool, number: u32) {
        if !holds {
            self.fail(Fault::Otherwise(number));
        }
    }

    /// Whether there was memory.
    pub(crate) fn note(&mut self, had: bool) {
        if !had {
            self.fail(Fault::Want);
        }
    }

    /// A client says this.
    pub(crate) fn say(&mut self, client: usize, text: &[u8], wanted: Wanted) {
        let Some(at) = self.clients.get_mut(client) else {
            return;
        };
        let mut had = at.open.push_back(wanted).is_ok();
        if let Some(lines) = self.lines.get(at.seat) {
            had &= lines.say(at.line, text).is_ok();
        }
        self.note(had);
    }

    /// A client goes away.
    pub(crate) fn leave(&mut self, client: usize, presence: Presence) {
        if let Some(at) = self.clients.get_mut(client) {
            at.presence = presence;
            if let Some(lines) = self.lines.get(at.seat) {
                lines.leave(at.line, presence);
            }
        }
    }

    /// What a client heard and didn't judge yet.
    pub(crate) fn unseen(&mut self, client: usize) -> Vec<u8> {
        if let Some(at) = self.clients.get(client) {
            if let Some(lines) = self.lines.get(at.seat) {
                if let Ok(heard) = lines.heard(at.line, at.seen) {
                    return heard;
                }
            }
        }
        self.fail(Fault::Want);
        Vec::new(self.alloc)
    }
    /// How many bytes the clients of two members heard.
    pub(crate) fn seen_at(&self, seats: [usize; 2]) -> usize {
        let mut seen: usize = 0;
        for client in &self.clients {
            if client.seat == seats[0] || client.seat == seats[1] {
                seen = seen.saturating_add(client.seen);
            }
        }
        seen
    }

    /// The counter was raised so often, and each time was heard.
    pub(crate) fn expect_raised(&mut self, count: u64) {
        let raises = &self.raises;
        let holds = raises.said == count && raises.raised == count && raises.highest == count;
        self.expect(holds, 0);
    }

    /// Clients raise the counter, from one number to before another.
    pub(crate) fn raise_by(&mut self, first: usize, end: usize) {
        'clients: for client in first..end {
            self.say_raise(client);
        }
    }

    /// Clients get the other counter.
    pub(crate) fn get_by(&mut self, first: usize, end: usize) {
        'clients: for client in first..end {
            self.say_item(client);
        }
    }

    /// Clients heard all that they asked.
    pub(crate) fn expect_heard(&mut self, first: usize, end: usize, number: u32) {
        let mut holds = true;
        for client in self.clients.get(first..end).unwrap_or_default() {
            holds &= client.open.is_empty();
        }
        self.expect(holds, number);
    }
}
