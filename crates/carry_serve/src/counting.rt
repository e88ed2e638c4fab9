use crate::carrying::Carrying;
use crate::report::CarryReport;
use crate::stop::Stop;
use crate::talking::items_word;
use carry_words::{PageLine, read_line, word_text};
use std::net::Net;
use std::time;

/// How long the next line of a list may take, in milliseconds.
const ANSWERING: u64 = 10_000;

/// What stands in a list: so many items without an end, or more from a position on.
enum Told {
    Ends(u64),
    Breaks,
}

impl<R: Net + time::Clock, W: CarryReport> Carrying<'_, R, W> {
    /// Sees that the new group has as many items without an end as the old one listed.
    pub(crate) fn count_new(&mut self) -> Result<(), Stop> {
        let mut lasting: u64 = 0;
        'partitions: for d in 0..self.settings.k as usize {
            lasting = lasting.saturating_add(self.count_of(d)?);
        }
        if lasting == self.lasting {
            return Ok(());
        }
        let wanted = self.lasting;
        self.warn(format!(in self.alloc;
            "the new group has {lasting} items without an end, and {wanted} were carried: it was no fresh one, or has other clients"
        )?);
        Err(Stop::Told)
    }

    // How many items without an end a partition of the new group has.
    fn count_of(&mut self, d: usize) -> Result<u64, Stop> {
        let address = match self.new.head_of(d) {
            Some(head) => self.new.control_at(head.member),
            None => "",
        };
        match self.count_at(d, address)? {
            Told::Ends(count) => Ok(count),
            Told::Breaks => {
                self.warn(format!(in self.alloc;
                    "the list of partition {d} of the new group broke off"
                )?);
                Err(Stop::Told)
            }
        }
    }

    fn count_at(&mut self, d: usize, address: &str) -> Result<Told, Stop> {
        let mut talk = self.open_talk(address);
        let mut count: u64 = 0;
        let mut from = Some(0u64);
        let mut heard = self.now;
        'turns: for _ in 0..u64::MAX {
            if let Some(at) = from {
                let word = items_word(d, at);
                talk.say(word_text(self.alloc, word)?.as_str())?;
                from = None;
            }
            let Some(line) = talk.next_line(self.alloc)? else {
                if !talk.is_open() || self.now.saturating_sub(heard) > ANSWERING {
                    return Ok(Told::Breaks);
                }
                talk.go_on();
                if !talk.has_line() {
                    self.wait(20);
                }
                continue;
            };
            heard = self.now;
            match read_line(self.alloc, line.as_slice())? {
                PageLine::Item { item } if item.until.is_none() => count = count.saturating_add(1),
                PageLine::Item { .. } => {}
                PageLine::More { from: at } => from = Some(at),
                PageLine::End => return Ok(Told::Ends(count)),
                PageLine::Other => return Ok(Told::Breaks),
            }
        }
        Ok(Told::Breaks)
    }
}
