use member_links::{Door, Greeted, Guest, LinkEvent, MemberLinks};
use mio::Registry;
use std::alloc::AllocError;
use std::io;
use std::net::Net;

/// The links of a machine to the others: those of its member of each group, and where other members come in.
#[derive(Drop)]
pub(crate) struct MachineLinks {
    pub(crate) groups: Vec<MemberLinks>,
    pub(crate) door: Door,
    pub(crate) now: u64,
}

impl MachineLinks {
    /// The links of its members to those of their groups, of which none is there yet, with a door for all.
    pub(crate) fn new(groups: Vec<MemberLinks>, door: Door) -> MachineLinks {
        MachineLinks {
            groups,
            door,
            now: 0,
        }
    }

    /// Connections of other members are told of from now on.
    pub(crate) fn watch(&mut self, registry: &Registry) -> io::Result<()> {
        self.door.watch(registry)
    }

    /// It is so late, in milliseconds of a clock that never goes back.
    pub(crate) fn set_now(&mut self, now: u64) {
        self.now = now;
        'groups: for links in self.groups.iter_mut() {
            links.set_now(now);
        }
    }

    /// What is watched under a token became ready, and its peer may have closed it.
    pub(crate) fn note_ready(&mut self, token: usize, ends: bool) {
        self.door.note_ready(token, ends);
        'groups: for links in self.groups.iter_mut() {
            links.note_ready(token, ends);
        }
    }

    /// Goes on with what is no link yet: accepts who came, hears their greetings, and connects to others.
    pub(crate) fn establish<N: Net>(&mut self, net: &N, registry: &Registry) {
        self.door.accept_all(registry, self.now);
        let count = self.door.len();
        'newcomers: for heard in 0..count {
            self.hear(count - 1 - heard);
        }
        'groups: for links in self.groups.iter_mut() {
            links.establish(net, registry);
        }
    }

    // Hears what one says that came.
    fn hear(&mut self, place: usize) {
        match self.door.hear(place, self.now) {
            Guest::Greets(greeted) => self.welcome(greeted),
            Guest::Stranger => self.note_stranger(),
            Guest::None => {}
        }
    }

    // One that came greets a member of one of the groups, or is a stranger.
    fn welcome(&mut self, greeted: Greeted) {
        let mut guest = greeted;
        'groups: for group in 0..self.groups.len() {
            match self.welcome_in(group, guest) {
                Some(other) => guest = other,
                None => return,
            }
        }
        drop(guest);
        self.note_stranger();
    }

    // One that came greets a member of a group: one of another group is given back.
    fn welcome_in(&mut self, group: usize, guest: Greeted) -> Option<Greeted> {
        match self.groups.get_mut(group) {
            Some(links) => links.welcome(guest),
            None => Some(guest),
        }
    }

    // A program came that is no member.
    fn note_stranger(&mut self) {
        if let Some(links) = self.groups.get_mut(0) {
            links.note_stranger();
        }
    }

    /// Writes what waits, as far as the streams take it.
    pub(crate) fn write_out(&mut self) {
        'groups: for links in self.groups.iter_mut() {
            links.write_out();
        }
    }

    /// An operator says that the process at an index of a group is dead.
    pub(crate) fn say(&mut self, group: u32, x: u32) -> Result<(), AllocError> {
        match self.groups.get_mut(group as usize) {
            Some(links) => links.say(x),
            None => Ok(()),
        }
    }

    /// What became of a link of a group that wasn't told yet.
    pub(crate) fn next_event(&mut self, group: u32) -> Option<LinkEvent> {
        match self.groups.get_mut(group as usize) {
            Some(links) => links.next_event(),
            None => None,
        }
    }
}
