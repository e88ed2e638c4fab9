ghost use Rattle.member_links.specs.Ages.{NoneGoesBack};

use crate::heard::Heard;
use crate::links::MemberLinks;
use crate::pipe::Pipe;
use crate::port::resolved;
use crate::stage::Stage;
use mio::Registry;
use mio::net::TcpStream;
use std::io;
use std::io::ErrorKind;
use std::net::{Net, SocketAddr};

/// After how many milliseconds a connection is tried again.
const AGAIN: u64 = 100;

/// How many milliseconds a connection may take.
const CONNECTING: u64 = 3_000;

/// After how many milliseconds a program of a name that was accepted before is looked for again.
const LOOKING: u64 = 1_000;

#[tactic(auto, using(crate::proofs::Aging::aging))]
impl MemberLinks {
    /// Goes on with the link to a member of higher index: connects to it or hears its greeting. Where its link broke, or it
    /// was cut, a program that was started anew in its name is told so.
    pub(crate) fn approach<N: Net>(&mut self, net: &N, registry: &Registry, x: u32)
        ensures { NoneGoesBack self.old.links.items self.new.links.items }
    {
        match self.stage(x) {
            Stage::Absent => self.connect(net, registry, x),
            Stage::Greeting => self.hear_answer(x),
            Stage::Broken | Stage::Cut => self.look_for(net, registry, x),
            Stage::Up | Stage::Own => {}
        }
    }

    fn is_due(&self, x: u32) -> bool {
        match self.link(x) {
            Some(link) => link.is_due(self.now),
            None => false,
        }
    }

    // The next step of the link to a member comes so many milliseconds from now.
    fn put_off(&mut self, x: u32, wait: u64)
        ensures { NoneGoesBack self.old.links.items self.new.links.items }
    {
        let due = self.now.saturating_add(wait);
        if let Some(link) = self.links.get_mut(x as usize) {
            link.put_off(due);
        }
    }

    // A stream that connects to a member.
    fn open<N: Net>(&mut self, net: &N, registry: &Registry, x: u32) -> io::Result<Pipe>
        ensures { NoneGoesBack self.old.links.items self.new.links.items }
    {
        let Some(at) = self.address_of(net, x) else {
            return Err(io::Error::from(ErrorKind::InvalidInput));
        };
        let stream = TcpStream::connect(net, at)?;
        let _ = stream.set_nodelay(true);
        self.pipe_of(registry, stream)
    }

    // Where a member listens.
    fn address_of<N: Net>(&self, net: &N, x: u32) -> Option<SocketAddr> {
        match self.link(x) {
            Some(link) => resolved(net, link.address()),
            None => None,
        }
    }

    // A stream that connects to a member and greets it.
    fn open_to_greet<N: Net>(&mut self, net: &N, registry: &Registry, x: u32) -> io::Result<Pipe>
        ensures { NoneGoesBack self.old.links.items self.new.links.items }
    {
        let mut pipe = self.open(net, registry, x)?;
        self.greet(x, &mut pipe)?;
        Ok(pipe)
    }

    // A stream that connects to a program that was started anew in a member's name, and tells it that it is no member.
    fn open_to_deny<N: Net>(&mut self, net: &N, registry: &Registry, x: u32) -> io::Result<Pipe>
        ensures { NoneGoesBack self.old.links.items self.new.links.items }
    {
        let mut pipe = self.open_to_greet(net, registry, x)?;
        self.deny(x, &mut pipe)?;
        Ok(pipe)
    }

    // Connects to a member, if that is due.
    fn connect<N: Net>(&mut self, net: &N, registry: &Registry, x: u32)
        ensures { NoneGoesBack self.old.links.items self.new.links.items }
    {
        if !self.is_due(x) {
            return;
        }
        match self.open_to_greet(net, registry, x) {
            Ok(pipe) => {
                self.put_off(x, CONNECTING);
                self.set_connecting(x, pipe);
            }
            Err(_) => self.put_off(x, AGAIN),
        }
    }

    // A stream connects to a member.
    fn set_connecting(&mut self, x: u32, pipe: Pipe)
        ensures { NoneGoesBack self.old.links.items self.new.links.items }
    {
        if let Some(link) = self.links.get_mut(x as usize) {
            link.connect(pipe);
        }
    }

    // Connects to a member once more, after so many milliseconds.
    fn connect_again(&mut self, x: u32, wait: u64)
        ensures { NoneGoesBack self.old.links.items self.new.links.items }
    {
        self.put_off(x, wait);
        if let Some(link) = self.links.get_mut(x as usize) {
            link.disconnect();
        }
    }

    // Reads the greeting of a member that was connected to.
    fn hear_answer(&mut self, x: u32)
        ensures { NoneGoesBack self.old.links.items self.new.links.items }
    {
        match self.answer_of(x) {
            Heard::Nothing => {
                if self.is_late(x) {
                    self.connect_again(x, AGAIN);
                }
            }
            Heard::Broken => self.connect_again(x, AGAIN),
            heard => self.settle(x, heard),
        }
    }

    // The link to a member is there where it greets, and else it is connected to once more.
    fn settle(&mut self, x: u32, heard: Heard)
        ensures { NoneGoesBack self.old.links.items self.new.links.items }
    {
        if !self.judge_answer(x, heard) {
            self.connect_again(x, LOOKING);
        } else if let Some(pipe) = self.take_pipe(x) {
            self.link_up(x, pipe);
        }
    }

    // What the first frame that came of a member says, once it was greeted.
    fn answer_of(&mut self, x: u32) -> Heard
        ensures { NoneGoesBack self.old.links.items self.new.links.items }
    {
        match self.links.get_mut(x as usize) {
            Some(link) => link.hear(),
            None => Heard::Broken,
        }
    }

    fn take_pipe(&mut self, x: u32) -> Option<Pipe>
        ensures { NoneGoesBack self.old.links.items self.new.links.items }
    {
        match self.links.get_mut(x as usize) {
            Some(link) => link.take_pipe(),
            None => None,
        }
    }

    // Whether a connection isn't there yet and took too long.
    fn is_late(&self, x: u32) -> bool {
        match self.link(x) {
            Some(link) => link.is_late(self.now),
            None => false,
        }
    }

    // Looks for a program that was started anew in a member's name, and tells it that it is no member.
    fn look_for<N: Net>(&mut self, net: &N, registry: &Registry, x: u32)
        ensures { NoneGoesBack self.old.links.items self.new.links.items }
    {
        if self.is_due(x) {
            self.put_off(x, LOOKING);
            let pipe = self.open_to_deny(net, registry, x).ok();
            self.deny_by(x, pipe);
        } else if let Some(link) = self.links.get_mut(x as usize) {
            link.write_denial();
        }
    }

    // A stream, if there is one, tells such a program so.
    fn deny_by(&mut self, x: u32, pipe: Option<Pipe>)
        ensures { NoneGoesBack self.old.links.items self.new.links.items }
    {
        if let Some(link) = self.links.get_mut(x as usize) {
            link.deny_by(pipe);
        }
    }
}
