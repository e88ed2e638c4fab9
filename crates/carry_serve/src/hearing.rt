use crate::carrying::Carrying;
use crate::report::CarryReport;
use crate::stop::Stop;
use carry_words::{Found, Heard, read_answer};
use memchr::memchr;
use std::net::Net;
use std::{str, time};

/// After how many milliseconds an item is asked for again that wasn't given.
const AGAIN: u64 = 100;

/// The most answers that are taken on a connection in a turn.
const MOST_ANSWERS: u32 = 4_096;

impl<R: Net + time::Clock, W: CarryReport> Carrying<'_, R, W> {
    /// Hears what is answered on a connection.
    pub(crate) fn hear_lane(&mut self, i: usize) -> Result<(), Stop> {
        'answers: for _ in 0..MOST_ANSWERS {
            let Some(lane) = self.lanes.get_mut(i) else {
                return Ok(());
            };
            let Some(at) = lane.first() else {
                return Ok(());
            };
            let Some(transfer) = self.carry.at(at) else {
                return Ok(());
            };
            let Some(found) = read_answer(self.alloc, &transfer.item, lane.text())? else {
                return Ok(());
            };
            lane.heard = self.now;
            self.take_answer(i, at, found)?;
        }
        Ok(())
    }

    // Takes an answer of the item at a place.
    fn take_answer(&mut self, i: usize, at: usize, found: Found) -> Result<(), Stop> {
        let Found { heard, count } = found;
        if matches!(heard, Heard::Refused) {
            self.note_refusal(i)?;
        }
        if let Some(lane) = self.lanes.get_mut(i) {
            lane.take(count);
            lane.take_first();
        }
        self.hear(at, heard)
    }

    // Keeps what was refused.
    fn note_refusal(&mut self, i: usize) -> Result<(), Stop> {
        let refusal = self.refusal_at(i)?;
        if refusal.as_str().starts_with("SERVER_ERROR out of memory") {
            self.is_full = true;
        }
        self.refusal = refusal;
        Ok(())
    }

    // The line that came first on a connection.
    fn refusal_at(&self, i: usize) -> Result<String, Stop> {
        let text = match self.lanes.get(i) {
            Some(lane) => lane.text(),
            None => b"",
        };
        let line = match memchr(b'\n', text) {
            Some(end) => str::from_utf8(&text[..end]).unwrap_or(""),
            None => "",
        };
        Ok(String::from_str(self.alloc, line.trim_end())?)
    }

    // Something was heard of the item at a place.
    fn hear(&mut self, at: usize, heard: Heard) -> Result<(), Stop> {
        let is_again = matches!(heard, Heard::Refused | Heard::Missing);
        let length = match self.carry.at(at) {
            Some(transfer) => transfer.item.length,
            None => 0,
        };
        let before = self.carry.carried();
        self.carry.hear(at, heard, self.moment);
        if self.carry.carried() > before {
            self.bytes = self.bytes.saturating_add(u64::from(length));
        }
        match self.carry.at(at) {
            Some(_) if is_again => self.places.put_off(self.now.saturating_add(AGAIN), at)?,
            Some(_) => {
                self.moved = self.now;
                self.queue(at)?;
            }
            None => {
                self.moved = self.now;
                self.places.give_back(at, length)?;
            }
        }
        Ok(())
    }

    /// Asks again for what was put off.
    pub(crate) fn ask_again(&mut self) -> Result<(), Stop> {
        'items: for _ in 0..MOST_ANSWERS {
            let Some(at) = self.places.next_due(self.now) else {
                return Ok(());
            };
            self.queue(at)?;
        }
        Ok(())
    }
}
