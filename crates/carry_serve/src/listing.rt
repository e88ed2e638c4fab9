use crate::carrying::{Carrying, Page};
use crate::report::CarryReport;
use crate::stop::Stop;
use crate::talking::items_word;
use carry_words::{Listed, PageLine, read_line, word_text};
use std::net::Net;
use std::time;

/// The most bytes that the values of items on their way have, but for one item.
const MOST_BYTES: u64 = 64 << 20;

/// The most items of a partition that are taken in a turn.
const MOST_LINES: u32 = 256;

impl<R: Net + time::Clock, W: CarryReport> Carrying<'_, R, W> {
    /// Asks the head of each partition for the list of its items.
    pub(crate) fn begin_lists(&mut self) -> Result<(), Stop> {
        'partitions: for d in 0..self.settings.k as usize {
            let address = match self.old.head_of(d) {
                Some(head) => self.old.control_at(head.member),
                None => "",
            };
            let mut page = Page {
                talk: self.open_talk(address),
                is_over: false,
            };
            let line = word_text(self.alloc, items_word(d, 0))?;
            page.talk.say(line.as_str())?;
            self.pages.push(page)?;
        }
        Ok(())
    }

    /// Takes items from the lists, as long as there are places for them.
    pub(crate) fn read_lists(&mut self) -> Result<(), Stop> {
        'partitions: for d in 0..self.pages.len() {
            self.read_list(d)?;
        }
        Ok(())
    }

    fn read_list(&mut self, d: usize) -> Result<(), Stop> {
        'lines: for _ in 0..MOST_LINES {
            if self.places.count_free() == 0 || self.places.bytes > MOST_BYTES {
                return Ok(());
            }
            let Some(line) = self.next_line(d)? else {
                return Ok(());
            };
            match read_line(self.alloc, line.as_slice())? {
                PageLine::Item { item } => self.list(d, item)?,
                PageLine::More { from } => self.ask_more(d, from)?,
                PageLine::End => self.end_list(d),
                PageLine::Other => return self.stop_list(d),
            }
        }
        Ok(())
    }

    // The next line of a list that isn't over.
    fn next_line(&mut self, d: usize) -> Result<Option<Vec<u8>>, Stop> {
        let Some(page) = self.pages.get_mut(d) else {
            return Ok(None);
        };
        if page.is_over {
            return Ok(None);
        }
        if !page.talk.has_line() {
            page.talk.go_on();
        }
        if !page.talk.is_open() {
            self.warn(format!(in self.alloc;
                "the list of partition {d} of the old group broke off"
            )?);
            return Err(Stop::Told);
        }
        Ok(page.talk.next_line(self.alloc)?)
    }

    // An item was listed.
    fn list(&mut self, d: usize, item: Listed) -> Result<(), Stop> {
        let Some(at) = self.places.take(d, item.length) else {
            return Err(Stop::Told);
        };
        self.listed = self.listed.saturating_add(1);
        if item.until.is_none() {
            self.lasting = self.lasting.saturating_add(1);
        }
        self.carry.list(at, item);
        self.places.queue(d, at)?;
        Ok(())
    }

    fn ask_more(&mut self, d: usize, from: u64) -> Result<(), Stop> {
        let line = word_text(self.alloc, items_word(d, from))?;
        if let Some(page) = self.pages.get_mut(d) {
            page.talk.say(line.as_str())?;
        }
        Ok(())
    }

    fn end_list(&mut self, d: usize) {
        self.carry.end_list();
        if let Some(page) = self.pages.get_mut(d) {
            page.is_over = true;
        }
    }

    fn stop_list(&mut self, d: usize) -> Result<(), Stop> {
        self.warn(format!(in self.alloc;
            "the list of partition {d} of the old group can't be read"
        )?);
        Err(Stop::Told)
    }
}
