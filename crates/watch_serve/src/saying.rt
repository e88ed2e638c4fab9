use crate::names::dead_names;
use crate::report::WatchReport;
use crate::watching::Watching;
use std::mem;

/// After how many milliseconds a word is said again that wasn't taken.
const AGAIN: u64 = 5_000;

impl<R, W: WatchReport> Watching<'_, R, W> {
    /// Tells the member who is dead, where it didn't take just that on this connection.
    pub(crate) fn tell_member(&mut self) {
        let Ok(names) = dead_names(self.alloc, self.settings, self.members.as_slice()) else {
            return;
        };
        if names.is_empty() || names == self.member.taken {
            return;
        }
        if names == self.member.asked && self.now.saturating_sub(self.member.asked_at) < AGAIN {
            return;
        }
        let Ok(line) = format!(in self.alloc; "dead {}\n", names.as_str()) else {
            return;
        };
        let Some(wire) = self.member.wire() else {
            return;
        };
        if wire.say(line.as_str()).is_ok() {
            let _ = wire.go_on();
            self.member.asked = names;
            self.member.asked_at = self.now;
        }
    }

    /// Hears what the member answers.
    pub(crate) fn hear_member(&mut self) {
        let Some(answer) = self.member.next_answer(self.alloc) else {
            return;
        };
        let is_taken = answer.as_str() == "taken" || answer.as_str() == "ended";
        let asked = mem::replace(&mut self.member.asked, String::new(self.alloc));
        self.tell_answer(is_taken, asked.as_str(), answer.as_str());
        if is_taken {
            self.member.taken = asked;
        } else {
            self.member.asked = asked;
        }
    }

    fn tell_answer(&self, is_taken: bool, asked: &str, answer: &str) {
        let Ok(text) = format!(in self.alloc; "said dead {asked}: {answer}") else {
            return;
        };
        if is_taken {
            self.report.note(text.as_str());
        } else {
            self.report.warn(text.as_str());
        }
    }
}
