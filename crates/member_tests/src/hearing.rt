// What clients hear.
use crate::client::Wanted;
use crate::crowd::{Crowd, Fault};
use crate::rows::row_at;

/// The most answers that a client hears at a time.
const MOST: u32 = 64;

impl Crowd<'_> {
    /// The clients of a member hear what came since.
    pub(crate) fn hear_at(&mut self, seat: usize) {
        'clients: for client in 0..self.clients.len() {
            if self.is_at(client, seat) {
                self.hear(client);
            }
        }
    }

    /// Whether a client is at a member.
    pub(crate) fn is_at(&self, client: usize, seat: usize) -> bool {
        match self.clients.get(client) {
            Some(client) => client.seat == seat,
            None => false,
        }
    }

    // A client hears what came since, and judges each whole answer.
    fn hear(&mut self, client: usize) {
        'answers: for _ in 0..MOST {
            if !self.hears_one(client) {
                return;
            }
        }
    }

    // Whether a client heard a whole answer.
    fn hears_one(&mut self, client: usize) -> bool {
        let heard = self.unseen(client);
        let Some(wanted) = self.wanted(client) else {
            if !heard.is_empty() {
                self.fail_at(client);
            }
            return false;
        };
        let Some(len) = first_answer(wanted, &heard) else {
            return false;
        };
        self.take(client, wanted, heard.get(..len).unwrap_or_default());
        true
    }

    // A client hears an answer.
    fn take(&mut self, client: usize, wanted: Wanted, text: &[u8]) {
        if !self.judge(client, wanted, text) {
            self.fail_at(client);
        }
        if let Some(client) = self.clients.get_mut(client) {
            client.see(text.len());
        }
    }

    fn wanted(&self, client: usize) -> Option<Wanted> {
        self.clients.get(client)?.open.front().copied()
    }

    fn fail_at(&mut self, client: usize) {
        if let Some(at) = self.clients.get(client) {
            let seen = at.seen;
            self.fail(Fault::Heard { client, seen });
        }
    }
}

// How long the first answer is that was heard, if it is whole.
fn first_answer(wanted: Wanted, heard: &[u8]) -> Option<usize> {
    if let Wanted::Row(number) = wanted {
        if row_at(number).hears.is_empty() {
            return Some(0);
        }
    }
    end_of_get(heard)
}

// Where an answer ends that has the items of at most two keys, if it is whole.
fn end_of_get(heard: &[u8]) -> Option<usize> {
    let mut end: usize = 0;
    'items: for _ in 0..2u32 {
        let rest = heard.get(end..).unwrap_or_default();
        if rest.starts_with(b"VALUE ") {
            end = end.saturating_add(end_of_lines(rest, 2)?);
        }
    }
    let rest = heard.get(end..).unwrap_or_default();
    Some(end.saturating_add(end_of_lines(rest, 1)?))
}

/// Where so many lines end, if they are whole.
pub(crate) fn end_of_lines(heard: &[u8], lines: u32) -> Option<usize> {
    let mut left = lines;
    for (place, byte) in heard.iter().enumerate() {
        if *byte == b'\n' {
            left = left.saturating_sub(1);
        }
        if left == 0 {
            return Some(place.saturating_add(1));
        }
    }
    None
}
