ghost use Rattle.member_links.specs.Ages.{NoneGoesBack};

use crate::link_end::LinkEnd;
use crate::links::{MOST_MEMBERS, MemberLinks};
use crate::pipe::PipeFault;
use group_types::ProcessId;
use link_frames::{Frame, NameSet, encode_into, fits_link};
use member_gateway::Links;
use std::alloc::AllocError;

#[tactic(auto, using(crate::proofs::Aging::aging))]
impl MemberLinks {
    // Spells a frame that goes to a member: nothing where it has no spelling, which ends the program.
    pub(crate) fn spell(&mut self, to: u32, frame: &Frame) -> Result<(), AllocError>
        ensures { NoneGoesBack self.old.links.items self.new.links.items }
    {
        self.spelled.clear();
        if fits_link(frame) {
            return encode_into(self.alloc, &mut self.spelled, frame);
        }
        self.stop(LinkEnd::NoSpelling(to));
        Ok(())
    }

    // The next frame that came of a member.
    fn next_of(&mut self, from: u32) -> Result<Option<Frame>, PipeFault>
        ensures { NoneGoesBack self.old.links.items self.new.links.items }
    {
        match self.links.get_mut(from as usize) {
            Some(link) => link.take(),
            None => Ok(None),
        }
    }

    // A frame of a member, unless it says that this member was cut.
    fn unless_cut(&mut self, from: u32, frame: Frame) -> Option<Frame>
        ensures { NoneGoesBack self.old.links.items self.new.links.items }
    {
        if self.is_cut_by(&frame) {
            self.stop(LinkEnd::Refused(from));
            return None;
        }
        Some(frame)
    }

    // Whether a frame says that this member was cut.
    fn is_cut_by(&self, frame: &Frame) -> bool {
        match frame {
            Frame::Said(names) => has_name(*names, self.greeting.own),
            _ => false,
        }
    }

    // No frame comes of a member, for this reason.
    fn note_fault(&mut self, from: u32, fault: PipeFault)
        ensures { NoneGoesBack self.old.links.items self.new.links.items }
    {
        match fault {
            PipeFault::Broken => self.break_off(from),
            PipeFault::BadFrame => self.stop(LinkEnd::BadFrame(from)),
            PipeFault::Want => {}
        }
    }
}

/// Whether the member at an index is among some.
pub(crate) fn has_name(names: NameSet, x: u32) -> bool {
    x < MOST_MEMBERS && names.0 >> x & 1 == 1
}

#[tactic(auto, using(crate::proofs::Aging::aging))]
impl Links for MemberLinks {
    fn take(&mut self, from: u32) -> Option<Frame>
        ensures { NoneGoesBack self.old.links.items self.new.links.items }
    {
        match self.next_of(from) {
            Ok(Some(frame)) => self.unless_cut(from, frame),
            Ok(None) => None,
            Err(fault) => {
                self.note_fault(from, fault);
                None
            }
        }
    }

    fn give_back(&mut self, from: u32, frame: Frame)
        ensures { NoneGoesBack self.old.links.items self.new.links.items }
    {
        if let Some(link) = self.links.get_mut(from as usize) {
            link.give_back(frame);
        }
    }

    fn misfit(&mut self, from: u32)
        ensures { NoneGoesBack self.old.links.items self.new.links.items }
    {
        self.stop(LinkEnd::Misfit(from));
    }

    fn put(&mut self, to: u32, frame: &Frame) -> Result<(), AllocError>
        ensures { NoneGoesBack self.old.links.items self.new.links.items }
    {
        self.spell(to, frame)?;
        match self.links.get_mut(to as usize) {
            Some(link) => link.put(&self.spelled),
            None => Ok(()),
        }
    }

    fn has_room(&self, to: u32) -> bool {
        match self.link(to) {
            Some(link) => link.has_room(),
            None => false,
        }
    }

    fn cut(&mut self, x: u32)
        ensures { NoneGoesBack self.old.links.items self.new.links.items }
    {
        if let Some(link) = self.links.get_mut(x as usize) {
            link.cut();
        }
    }

    fn next_word(&mut self) -> Option<ProcessId>
        ensures { NoneGoesBack self.old.links.items self.new.links.items }
    {
        self.words.pop_front()
    }

    fn now(&self) -> u64 {
        self.now
    }
}
