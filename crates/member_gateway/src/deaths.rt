// Words of deaths, and what they bring.
ghost use Rattle.member_gateway.specs.Calls.{GoesQuietly};

use crate::links::Links;
use crate::parking::Event;
use crate::sets::{has, many, members_of, names_of, place_of, with, without};
use crate::work::MemberWork;
use group_node::process_at;
use group_types::{CALLERS, ProcessId};
use head_service::Settlement;
use link_frames::{Frame, NameSet};

/// The most words that are taken in a turn.
const WORDS: u32 = 64;

impl MemberWork {
    /// Takes the operator's words.
    pub(crate) fn take_words<L: Links>(&mut self, links: &mut L)
        ensures goes { GoesQuietly self.old self.new }
    {
        'words: for _ in 0..WORDS {
            if !self.is_clear() {
                return;
            }
            let Some(x) = links.next_word() else {
                return;
            };
            if self.cuts(links, x) {
                self.say(links);
            }
        }
    }

    /// Another has said whom it has cut: those are cut here too.
    pub(crate) fn hear<L: Links>(&mut self, links: &mut L, from: ProcessId, names: NameSet)
        ensures goes { GoesQuietly self.old self.new }
    {
        let shape = self.shape();
        let set = members_of(shape, names.0);
        self.hear_set(from, &set);
        self.has_word = true;
        let mut says = false;
        'names: for x in 0..many(shape) {
            if has(names.0, x) && self.cuts(links, process_at(shape, x)) {
                says = true;
            }
        }
        if says {
            self.say(links);
        }
    }

    // Whether a process could be cut, and is.
    fn cuts<L: Links>(&mut self, links: &mut L, x: ProcessId) -> bool
        ensures goes { GoesQuietly self.old self.new }
    {
        if !self.cut_member(x) {
            return false;
        }
        let x = place_of(self.shape(), x);
        links.cut(x);
        self.uncut = without(self.uncut, x);
        self.fence.cut(x);
        self.has_word = true;
        true
    }

    // The member says whom it has cut to all that it hasn't cut.
    fn say<L: Links>(&mut self, links: &mut L)
        ensures goes { GoesQuietly self.old self.new }
    {
        let set = self.say_cut();
        let names = names_of(self.shape(), &set);
        self.outgoing.post(links, self.uncut, Frame::Said(names));
    }

    /// Permits and takes the deaths that can be, where there was a word.
    pub(crate) fn take_deaths<L: Links>(&mut self, links: &mut L)
        ensures goes { GoesQuietly self.old self.new }
    {
        if !self.has_word {
            return;
        }
        self.has_word = false;
        self.permit();
        let shape = self.shape();
        'names: for x in 0..many(shape) {
            self.take_death(links, x, process_at(shape, x));
        }
    }

    // Takes a death, where it can be: after want of memory once more later.
    fn take_death<L: Links>(&mut self, links: &mut L, x: u32, name: ProcessId)
        ensures goes { GoesQuietly self.old self.new }
    {
        if !self.is_clear() {
            self.has_word = true;
            return;
        }
        match self.take(name) {
            Err(_) => self.has_word = true,
            Ok(None) => {}
            Ok(Some(settled)) => self.follow_death(links, x, settled),
        }
    }

    // What goes on by a death that was taken.
    fn follow_death<L: Links>(&mut self, links: &mut L, x: u32, settled: Vec<Settlement>)
        ensures goes { GoesQuietly self.old self.new }
    {
        self.taken = with(self.taken, x);
        self.parking.wake(Event::Death);
        self.calls.stir();
        self.settle(settled);
        self.collect(links);
        self.give_up();
        self.confirm();
    }

    // What was asked of those whose deaths are taken is given up.
    fn give_up(&mut self)
        ensures goes { GoesQuietly self.old self.new }
    {
        'callers: for caller in 0..CALLERS {
            if self.give_up_one(caller) {
                self.see(caller);
            }
        }
    }
}
