ghost use Rattle.member_links.specs.Ages.{NoneGoesBack};

use crate::frames::has_name;
use crate::heard::Heard;
use crate::link_end::LinkEnd;
use crate::link_event::LinkEvent;
use crate::links::{MOST_MEMBERS, MemberLinks};
use crate::pipe::Pipe;
use link_frames::{Frame, NameSet};
use std::alloc::AllocError;

#[tactic(auto, using(crate::proofs::Aging::aging))]
impl MemberLinks {
    /// Tells a program that its name, that of the member at an index, was accepted before.
    pub(crate) fn refuse(&mut self, x: u32, pipe: Pipe)
        ensures { NoneGoesBack self.old.links.items self.new.links.items }
    {
        let mut pipe = pipe;
        if self.deny(x, &mut pipe).is_ok() {
            let _ = pipe.write_greeting();
        }
        if self.is_first_again(x) {
            self.tell(LinkEvent::Again(x));
        }
    }

    /// Puts into a stream that the member at an index is none, since its name was accepted before.
    pub(crate) fn deny(&mut self, x: u32, pipe: &mut Pipe) -> Result<(), AllocError>
        ensures { NoneGoesBack self.old.links.items self.new.links.items }
    {
        self.spell(x, &Frame::Said(name_of(x)))?;
        pipe.greet(&self.spelled)
    }

    // Whether none came in this name again before.
    fn is_first_again(&mut self, x: u32) -> bool
        ensures { NoneGoesBack self.old.links.items self.new.links.items }
    {
        match self.links.get_mut(x as usize) {
            Some(link) => link.note_again(),
            None => false,
        }
    }

    /// Whether the member at an index greets, to which this one connected. This one has to stop where it is told that its name
    /// was accepted before.
    pub(crate) fn judge_answer(&mut self, x: u32, heard: Heard) -> bool
        ensures { NoneGoesBack self.old.links.items self.new.links.items }
    {
        match heard {
            Heard::Hello(hello) if self.greeting.sender_of(&hello) == Some(x) => return true,
            Heard::Said(names) if has_name(names, self.greeting.own) => {
                self.stop(LinkEnd::Refused(x));
            }
            _ => self.tell(LinkEvent::Stranger),
        }
        false
    }
}

/// The member at an index alone: none where there is no room for it.
fn name_of(x: u32) -> NameSet {
    NameSet(if x < MOST_MEMBERS { 1 << x } else { 0 })
}
