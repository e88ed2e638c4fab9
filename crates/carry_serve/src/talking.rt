use crate::carrying::Carrying;
use crate::report::CarryReport;
use crate::stop::Stop;
use crate::talk::Talk;
use crate::wire::Wire;
use carry_words::{Word, word_text};
use std::net::Net;
use std::time;
use std::time::Duration;

/// The first token of a connection to a control address: those below are of lanes.
const FIRST_TALK: usize = 1 << 20;

/// The most lines of an answer that are taken at once.
const MOST_LINES: u32 = 4_096;

/// How long a member has to answer a word, in milliseconds.
const ANSWERING: u64 = 5_000;

impl<R: Net + time::Clock, W: CarryReport> Carrying<'_, R, W> {
    /// Waits until something comes, at most so many milliseconds, and sees how late it is.
    pub(crate) fn wait(&mut self, most: u64) {
        let _ = self
            .poll
            .poll(&mut self.events, Some(Duration::from_millis(most)));
        self.tell_time();
    }

    // Sees how late it is. Where the system's clock fails the time stands still.
    fn tell_time(&mut self) {
        if let Ok(time) = self.rt.monotonic() {
            let whole = time.as_secs().saturating_mul(1_000);
            self.now = whole.saturating_add(u64::from(time.subsec_millis()));
        }
        if let Ok(time) = self.rt.since_1970() {
            self.moment = time.as_secs();
        }
    }

    /// A connection to an address where operators are heard, if there can be one.
    pub(crate) fn open_talk(&mut self, address: &str) -> Talk {
        let token = FIRST_TALK.saturating_add(self.next_token);
        self.next_token = self.next_token.saturating_add(1);
        Talk::new(Wire::open(self.rt, self.alloc, self.poll.registry(), token, address).ok())
    }

    /// What is answered to a word at an address: all its lines. Nothing where nobody answers within 5 s.
    pub(crate) fn ask(&mut self, address: &str, word: Word) -> Result<Option<Vec<u8>>, Stop> {
        let line = word_text(self.alloc, word)?;
        let mut talk = self.open_talk(address);
        talk.say(line.as_str())?;
        let until = self.now.saturating_add(ANSWERING);
        let mut text = Vec::new(self.alloc);
        'turns: for _ in 0..u64::MAX {
            talk.go_on();
            if self.hear_answer(&mut talk, word, &mut text)? {
                return Ok(Some(text));
            }
            if !talk.is_open() || until <= self.now {
                return Ok(None);
            }
            self.wait(20);
        }
        Ok(None)
    }

    // Takes the lines that came of an answer to a word. Says whether it is whole.
    fn hear_answer(&self, talk: &mut Talk, word: Word, text: &mut Vec<u8>) -> Result<bool, Stop> {
        'lines: for _ in 0..MOST_LINES {
            let Some(line) = talk.next_line(self.alloc)? else {
                return Ok(false);
            };
            let is_last = word != Word::Status || line.as_slice() == b"end".as_slice();
            text.extend_from_slice(line.as_slice())?;
            text.extend_from_slice(b"\n")?;
            if is_last {
                return Ok(true);
            }
        }
        Ok(false)
    }
}

/// What asks for the items of a partition from a position on.
pub(crate) fn items_word(d: usize, from: u64) -> Word {
    Word::Items {
        partition: u32::try_from(d).unwrap_or(u32::MAX),
        from,
    }
}
