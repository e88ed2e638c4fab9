ghost use Rattle.member_links.specs.Ages.{NoneGoesBack};

use crate::link_event::LinkEvent;
use crate::links::{MOST_MEMBERS, MemberLinks};
use crate::newcomer::Greeted;
use crate::pipe::Pipe;
use crate::stage::Stage;
use link_frames::Frame;
use mio::Registry;
use mio::net::TcpStream;
use std::alloc::AllocError;
use std::io;
use std::net::Net;

#[tactic(auto, using(crate::proofs::Aging::aging))]
impl MemberLinks {
    /// Goes on with what is no link yet to those of higher index: connects to them where they weren't there before, and reads
    /// their greetings.
    pub fn establish<N: Net>(&mut self, net: &N, registry: &Registry)
        ensures { NoneGoesBack self.old.links.items self.new.links.items }
    {
        'links: for x in 0..MOST_MEMBERS {
            if self.greeting.own < x {
                self.approach(net, registry, x);
            }
        }
    }

    /// A stream of frames, watched under a token of its own.
    pub(crate) fn pipe_of(&mut self, registry: &Registry, stream: TcpStream) -> io::Result<Pipe>
        ensures { NoneGoesBack self.old.links.items self.new.links.items }
    {
        let token = self.tokens.take();
        Pipe::watched(self.alloc, self.greeting.shape, registry, token, stream)
    }

    /// One that came greets: it is linked, where its name is that of a member of this group that wasn't accepted before. One of
    /// another group is given back.
    pub fn welcome(&mut self, greeted: Greeted) -> Option<Greeted>
        ensures { NoneGoesBack self.old.links.items self.new.links.items }
    {
        match self.greeting.sender_of(&greeted.hello) {
            Some(x) if x < self.greeting.own => {
                self.answer(x, greeted.pipe);
                None
            }
            _ => Some(greeted),
        }
    }

    /// A program came that is no member.
    pub fn note_stranger(&mut self)
        ensures { NoneGoesBack self.old.links.items self.new.links.items }
    {
        self.tell(LinkEvent::Stranger);
    }

    // A program greets in the name of the member at an index.
    fn answer(&mut self, x: u32, pipe: Pipe)
        ensures { NoneGoesBack self.old.links.items self.new.links.items }
    {
        match self.stage(x) {
            Stage::Absent => self.accept(x, pipe),
            _ => self.refuse(x, pipe),
        }
    }

    // Greets the member at an index, which greeted before, and is linked to it.
    fn accept(&mut self, x: u32, pipe: Pipe)
        ensures { NoneGoesBack self.old.links.items self.new.links.items }
    {
        let mut pipe = pipe;
        if self.greet(x, &mut pipe).is_ok() {
            self.link_up(x, pipe);
        }
    }

    /// The link to the member at an index is there.
    pub(crate) fn link_up(&mut self, x: u32, pipe: Pipe)
        ensures { NoneGoesBack self.old.links.items self.new.links.items }
    {
        if self.go_up(x, pipe) {
            self.tell(LinkEvent::Up(x));
        }
    }

    // Says whether the member at an index was waited for.
    fn go_up(&mut self, x: u32, pipe: Pipe) -> bool
        ensures { NoneGoesBack self.old.links.items self.new.links.items }
    {
        match self.links.get_mut(x as usize) {
            Some(link) => link.go_up(pipe),
            None => false,
        }
    }

    /// Puts this member's greeting to the member at an index into a stream.
    pub(crate) fn greet(&mut self, x: u32, pipe: &mut Pipe) -> Result<(), AllocError>
        ensures { NoneGoesBack self.old.links.items self.new.links.items }
    {
        let Some(hello) = self.greeting.hello_to(x) else {
            return Err(AllocError);
        };
        self.spell(x, &Frame::Hello(hello))?;
        pipe.greet(&self.spelled)
    }
}
