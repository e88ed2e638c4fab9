ghost use Rattle.member_links.specs.Ages.{NoneGoesBack};

use crate::greeting::{Greeting, process_of};
use crate::link::Link;
use crate::link_end::LinkEnd;
use crate::link_event::LinkEvent;
use crate::pipe::PipeFault;
use crate::stage::Stage;
use crate::tokens::LinkTokens;
use group_types::ProcessId;
use std::alloc::{AllocError, Global};
use std::collections::VecDeque;

/// More members than a group has.
pub(crate) const MOST_MEMBERS: u32 = 32;

/// The links of a member to the others of its group, what an operator said, and why the member has to stop.
#[derive(Drop)]
pub struct MemberLinks {
    pub(crate) alloc: Global,
    pub(crate) greeting: Greeting,
    pub(crate) links: Vec<Link>,
    pub(crate) tokens: LinkTokens,
    pub(crate) now: u64,
    pub(crate) spelled: Vec<u8>,
    pub(crate) words: VecDeque<ProcessId>,
    pub(crate) events: VecDeque<LinkEvent>,
    pub(crate) end: Option<LinkEnd>,
}

#[tactic(auto, using(crate::proofs::Aging::aging))]
impl MemberLinks {
    /// No link yet to the others of a group, the member being greeted as this. The streams of links are told of under these tokens.
    pub fn new(alloc: Global, greeting: Greeting, tokens: LinkTokens) -> MemberLinks {
        MemberLinks {
            alloc,
            greeting,
            links: Vec::new(alloc),
            tokens,
            now: 0,
            spelled: Vec::new(alloc),
            words: VecDeque::new(alloc),
            events: VecDeque::new(alloc),
            end: None,
        }
    }

    /// The next member, by index, is reached by others at this address.
    pub fn add(&mut self, address: &str) -> Result<(), AllocError>
        ensures { NoneGoesBack self.old.links.items self.new.links.items }
    {
        let is_own = self.links.len() == self.greeting.own as usize;
        let stage = if is_own { Stage::Own } else { Stage::Absent };
        let link = Link::new(self.alloc, address, stage)?;
        self.links.push(link)?;
        Ok(())
    }

    /// It is so late, in milliseconds of a clock that never goes back.
    pub fn set_now(&mut self, now: u64)
        ensures { NoneGoesBack self.old.links.items self.new.links.items }
    {
        self.now = now;
    }

    /// What is watched under a token became ready, and its peer may have closed it.
    pub fn note_ready(&mut self, token: usize, ends: bool)
        ensures { NoneGoesBack self.old.links.items self.new.links.items }
    {
        'links: for x in 0..MOST_MEMBERS {
            self.note_link(x, token, ends);
        }
    }

    // The same of the link to the member at an index.
    fn note_link(&mut self, x: u32, token: usize, ends: bool)
        ensures { NoneGoesBack self.old.links.items self.new.links.items }
    {
        if let Some(link) = self.links.get_mut(x as usize) {
            link.note_ready(token, ends);
        }
    }

    /// An operator says that the member at an index is dead.
    pub fn say(&mut self, x: u32) -> Result<(), AllocError>
        ensures { NoneGoesBack self.old.links.items self.new.links.items }
    {
        match process_of(self.greeting.shape, x) {
            Some(name) => {
                self.words.push_back(name)?;
                Ok(())
            }
            None => Ok(()),
        }
    }

    /// Writes what waits, as far as the streams take it.
    pub fn write_out(&mut self)
        ensures { NoneGoesBack self.old.links.items self.new.links.items }
    {
        'links: for x in 0..MOST_MEMBERS {
            if self.write_to(x).is_err() {
                self.break_off(x);
            }
        }
    }

    // Writes what waits for the member at an index.
    fn write_to(&mut self, x: u32) -> Result<(), PipeFault>
        ensures { NoneGoesBack self.old.links.items self.new.links.items }
    {
        match self.links.get_mut(x as usize) {
            Some(link) => link.write_out(),
            None => Ok(()),
        }
    }

    /// The link to the member at an index broke.
    pub(crate) fn break_off(&mut self, x: u32)
        ensures { NoneGoesBack self.old.links.items self.new.links.items }
    {
        if self.fail(x) {
            self.tell(LinkEvent::Broken(x));
        }
    }

    // Nothing comes or goes by the link to the member at an index any more. Says whether the group has one there.
    fn fail(&mut self, x: u32) -> bool
        ensures { NoneGoesBack self.old.links.items self.new.links.items }
    {
        match self.links.get_mut(x as usize) {
            Some(link) => {
                link.fail();
                true
            }
            None => false,
        }
    }

    // A person is told of this, where there is memory for it.
    pub(crate) fn tell(&mut self, event: LinkEvent)
        ensures { NoneGoesBack self.old.links.items self.new.links.items }
    {
        let _ = self.events.push_back(event);
    }

    // The member has to stop for this reason, if it doesn't already for another.
    pub(crate) fn stop(&mut self, end: LinkEnd)
        ensures { NoneGoesBack self.old.links.items self.new.links.items }
    {
        if self.end.is_none() {
            self.end = Some(end);
        }
    }
}
