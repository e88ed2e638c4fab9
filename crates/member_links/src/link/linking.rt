ghost use Rattle.std.specs.Prelude.{◌≡◌, ◌↔◌, ◌≤◌, IsTrue};
ghost use Rattle.member_links.specs.Stages.{IsMemberAwaited, age};

use super::Link;
use crate::heard::Heard;
use crate::pipe::Pipe;
use crate::stage::Stage;

impl Link {
    /// A stream connects to the other, if that is waited for.
    pub(crate) fn connect(&mut self, pipe: Pipe)
        ensures { age self.new.stage ≡ age self.old.stage }
    {
        if self.is_awaited() {
            self.stage = Stage::Greeting;
            self.pipe = Some(pipe);
        }
    }

    /// The stream that connects to the other is let go.
    pub(crate) fn disconnect(&mut self)
        ensures { age self.new.stage ≡ age self.old.stage }
    {
        if self.is_awaited() {
            self.stage = Stage::Absent;
            self.pipe = None;
        }
    }

    /// The other greeted by this stream. Says whether it was waited for: it is linked once.
    pub(crate) fn go_up(&mut self, pipe: Pipe) -> bool
        ensures awaited { IsTrue result ↔ IsMemberAwaited self.old.stage }
        ensures up { IsTrue result → self.new.stage ≡ Stage.Up }
        ensures once { ¬ (IsMemberAwaited self.old.stage) → self.new.stage ≡ self.old.stage }
        ensures age { age self.old.stage ≤ age self.new.stage }
    {
        if !self.is_awaited() {
            return false;
        }
        self.stage = Stage::Up;
        self.pipe = Some(pipe);
        true
    }

    /// The stream by which the other is heard.
    pub(crate) fn take_pipe(&mut self) -> Option<Pipe>
        ensures { self.new.stage ≡ self.old.stage }
    {
        self.pipe.take()
    }

    /// What the first frame that came of the other says, once it was greeted.
    pub(crate) fn hear(&mut self) -> Heard
        ensures { self.new.stage ≡ self.old.stage }
    {
        match &mut self.pipe {
            Some(pipe) => pipe.hear(),
            None => Heard::Broken,
        }
    }

    /// Whether the stream that connects to the other isn't there yet, and took too long.
    pub(crate) fn is_late(&self, now: u64) -> bool {
        match &self.pipe {
            Some(pipe) => !pipe.is_connected() && self.due <= now,
            None => true,
        }
    }
}
