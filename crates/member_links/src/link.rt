ghost use Rattle.std.specs.Prelude.{◌≡◌, ◌↔◌, ◌<◌, ◌≤◌, ◌++◌, length, IsTrue, IfOk, OnOk, OnErr};
ghost use Rattle.member_links.specs.Stages.{IsMemberAwaited, TakesText};

mod ending;
mod linking;

use crate::pipe::{Pipe, PipeFault};
use crate::stage::Stage;
use crate::traffic::Traffic;
use edge_io::Sink;
use link_frames::Frame;
use outbox::Outbox;
use std::alloc::{AllocError, Global};

/// The most bytes that may wait to be sent before messages have to wait.
const MOST_WAITING: usize = 262_144;

/// A link to another member.
#[derive(Drop)]
pub(crate) struct Link {
    alloc: Global,
    address: String,
    stage: Stage,
    pipe: Option<Pipe>,
    due: u64,
    outbox: Outbox,
    returned: Option<Frame>,
    came_again: bool,
}

impl Link {
    /// No link yet to a member that listens there.
    pub(crate) fn new(alloc: Global, address: &str, stage: Stage) -> Result<Link, AllocError>
        ensures { IfOk result (λ link. link.stage ≡ stage) }
    {
        Ok(Link {
            alloc,
            address: String::from_str(alloc, address)?,
            stage,
            pipe: None,
            due: 0,
            outbox: Outbox::new(alloc),
            returned: None,
            came_again: false,
        })
    }

    /// Where the other listens.
    pub(crate) fn address(&self) -> &str {
        self.address.as_str()
    }

    /// How far it is.
    pub(crate) fn stage(&self) -> Stage
        ensures { result ≡ self.now.stage }
    {
        self.stage
    }

    /// Whether frames come and go.
    pub(crate) fn is_up(&self) -> bool
        ensures { IsTrue result ↔ (self.now.stage ≡ Stage.Up) }
    {
        matches!(self.stage, Stage::Up)
    }

    /// Whether the other was never greeted, and is to be waited for.
    pub(crate) fn is_awaited(&self) -> bool
        ensures { IsTrue result ↔ IsMemberAwaited self.now.stage }
    {
        matches!(self.stage, Stage::Absent | Stage::Greeting)
    }

    /// Whether its next step is due at a time, in milliseconds.
    pub(crate) fn is_due(&self, now: u64) -> bool
        ensures { IsTrue result ↔ (self.now.due ≤ now) }
    {
        self.due <= now
    }

    /// Its next step is due from this time on.
    pub(crate) fn put_off(&mut self, due: u64)
        ensures due { self.new.due ≡ due }
        ensures stage { self.new.stage ≡ self.old.stage }
    {
        self.due = due;
    }

    /// Its stream is told of under this token, and became ready: its peer may have closed it.
    pub(crate) fn note_ready(&mut self, token: usize, ends: bool)
        ensures { self.new.stage ≡ self.old.stage }
    {
        if let Some(pipe) = &mut self.pipe {
            pipe.note_ready(token, ends);
        }
    }

    /// Whether something may be there that wasn't taken yet.
    pub(crate) fn has_input(&self) -> bool {
        match &self.pipe {
            Some(pipe) if self.is_up() => self.returned.is_some() || pipe.has_input(),
            _ => false,
        }
    }

    /// Whether few bytes wait to be sent, where the link is up: before that all wait.
    pub(crate) fn has_room(&self) -> bool
        ensures few { IsTrue result → length self.now.outbox < 262144 }
        ensures up { IsTrue result → ¬ (IsMemberAwaited self.now.stage) }
    {
        !self.is_awaited() && self.outbox.len() < MOST_WAITING
    }

    /// How much went over its stream: none where that is gone.
    pub(crate) fn traffic(&self) -> Traffic {
        match &self.pipe {
            Some(pipe) => pipe.traffic(),
            None => Traffic::none(),
        }
    }

    /// The next frame.
    pub(crate) fn take(&mut self) -> Result<Option<Frame>, PipeFault>
        ensures { self.new.stage ≡ self.old.stage }
    {
        if !self.is_up() {
            return Ok(None);
        }
        if let Some(frame) = self.returned.take() {
            return Ok(Some(frame));
        }
        match &mut self.pipe {
            Some(pipe) => pipe.next(),
            None => Ok(None),
        }
    }

    /// A frame is the next once more.
    pub(crate) fn give_back(&mut self, frame: Frame)
        ensures returned { self.new.returned ≡ Some frame }
        ensures stage { self.new.stage ≡ self.old.stage }
    {
        self.returned = Some(frame);
    }

    /// A text is to go out behind all others. Nothing goes to one whose link broke or that was cut.
    pub(crate) fn put(&mut self, text: &[u8]) -> Result<(), AllocError>
        ensures put { TakesText self.old.stage → OnOk result (self.new.outbox ≡ self.old.outbox ++ text.now) }
        ensures none { ¬ (TakesText self.old.stage) → self.new.outbox ≡ self.old.outbox }
        ensures want { OnErr result (self.new.outbox ≡ self.old.outbox) }
        ensures stage { self.new.stage ≡ self.old.stage }
    {
        if !self.is_up() && !self.is_awaited() {
            return Ok(());
        }
        match self.outbox.write(text) {
            Ok(_) => Ok(()),
            Err(_) => Err(AllocError),
        }
    }

    /// Writes what waits, as far as the stream takes it.
    pub(crate) fn write_out(&mut self) -> Result<(), PipeFault>
        ensures { self.new.stage ≡ self.old.stage }
    {
        if !self.is_up() {
            return Ok(());
        }
        match &mut self.pipe {
            Some(pipe) => pipe.write_out(&mut self.outbox),
            None => Ok(()),
        }
    }
}
