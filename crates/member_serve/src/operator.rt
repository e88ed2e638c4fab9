use crate::answers::{Word, word_of};
use crate::callers::Callers;
use crate::names::{MOST_MEMBERS, count_of, has, with};
use crate::report::Report;
use crate::said::Said;
use crate::seats::process_in;
use crate::serving::Serving;
use ready_worker::Watch;
use std::alloc::AllocError;
use std::net::Net;
use std::time;

/// The most lines of operators that are treated in a turn.
const MOST_LINES: u32 = 64;

impl<R: Net + time::Clock, W: Report + Watch, G: Callers> Serving<'_, R, W, G> {
    /// Does what operators say, and then accepts who came: those that went made room. Says whether one ended this member.
    pub(crate) fn hear_operators(&mut self) -> bool {
        self.control.read();
        let ends = self.hear_lines();
        self.control.write_out();
        self.control.accept_all(self.worker.readiness().registry());
        ends
    }

    // Does what the lines say that were read. Says whether one ended this member.
    fn hear_lines(&mut self) -> bool {
        let mut ends = false;
        'lines: for _ in 0..MOST_LINES {
            let Some((at, said)) = self.control.next() else {
                return ends;
            };
            ends = self.answer(at, said) || ends;
        }
        ends
    }

    // Answers what came on a connection. Says whether that ended this member.
    fn answer(&mut self, at: usize, said: Said) -> bool {
        match said {
            Said::Line(line) => self.hear(at, word_of(self.settings, &line)),
            Said::Request(page) => {
                self.answer_page(at, page);
                false
            }
        }
    }

    // Does what an operator says, and answers. Says whether that ended this member.
    fn hear(&mut self, at: usize, word: Word) -> bool {
        match word {
            Word::Dead(set) if has(set, self.settings.own) => {
                self.control.answer(at, "ended\n");
                return true;
            }
            Word::Dead(set) => {
                let answer = self.condemn(set);
                self.control.answer(at, answer);
            }
            Word::Status => self.answer_status(at),
            Word::Close => self.answer_close(at),
            Word::Open => self.answer_open(at),
            Word::Moved => self.answer_moved(at),
            Word::Items(partition, from) => self.answer_items(at, partition, from),
            Word::Unknown => self.control.answer(at, "no member has this name\n"),
            Word::Other => self.control.answer(
                at,
                "say dead NAME.., status, close, open, moved, items D or items D FROM\n",
            ),
        }
        false
    }

    // Members are dead, where with those that are cut that makes no more than the group can lose.
    fn condemn(&mut self, set: u32) -> &'static str {
        if count_of(set | self.condemned()) > self.settings.shape.m() {
            return "not taken: more members would be dead than the group can lose\n";
        }
        'members: for x in 0..MOST_MEMBERS {
            if has(set, x) && !self.say(x) {
                return "not taken: there is not enough memory\n";
            }
        }
        "taken\n"
    }

    // The member at an index is dead, which may have been said before: groups that don't know it are told. Says whether there was
    // memory for it.
    fn say(&mut self, x: u32) -> bool {
        if has(self.said | self.cut_in_all(), x) {
            return true;
        }
        'groups: for group in 0..self.settings.groups {
            if self.say_in(group, x).is_err() {
                return false;
            }
        }
        self.said = with(self.said, x);
        true
    }

    // The process of a group that the member at an index has is dead.
    fn say_in(&mut self, group: u32, x: u32) -> Result<(), AllocError> {
        if has(self.cut_in(group), x) {
            return Ok(());
        }
        match process_in(self.settings.shape, group, x) {
            Some(process) => self.links.say(group, process),
            None => Ok(()),
        }
    }

    fn answer_status(&mut self, at: usize) {
        match self.status() {
            Ok(text) => self.control.answer(at, text.as_str()),
            Err(_) => self.control.answer(at, "there is not enough memory\n"),
        }
    }
}
