ghost use Rattle.std.specs.Prelude.{◌≡◌, ◌≢◌, ◌↔◌, ◌≤◌, [], false, true, IsTrue};
ghost use Rattle.member_links.specs.Stages.{age};

use super::Link;
use crate::pipe::Pipe;
use crate::stage::Stage;
use outbox::Outbox;

impl Link {
    /// A stream, if there is one, tells a program that was started anew in the other's name that it is no member.
    pub(crate) fn deny_by(&mut self, pipe: Option<Pipe>)
        ensures { self.new.stage ≡ self.old.stage }
    {
        if !self.is_up() && !self.is_awaited() {
            self.pipe = pipe;
        }
    }

    /// Writes what tells such a program so. The stream is let go once it took all of it, or broke.
    pub(crate) fn write_denial(&mut self)
        ensures { self.new.stage ≡ self.old.stage }
    {
        if !self.is_up() && !self.is_awaited() && !self.denies() {
            self.pipe = None;
        }
    }

    // Writes what greets. Says whether some of it is still to go out.
    fn denies(&mut self) -> bool
        ensures { self.new.stage ≡ self.old.stage }
    {
        match &mut self.pipe {
            Some(pipe) => matches!(pipe.write_greeting(), Ok(false)),
            None => false,
        }
    }

    /// A program came in the other's name, which was accepted before. Says whether it is the first.
    pub(crate) fn note_again(&mut self) -> bool
        ensures first { IsTrue result ↔ (self.old.came_again ≡ false) }
        ensures noted { self.new.came_again ≡ true }
        ensures stage { self.new.stage ≡ self.old.stage }
    {
        let is_first = !self.came_again;
        self.came_again = true;
        is_first
    }

    /// Its stream broke.
    pub(crate) fn fail(&mut self)
        ensures broken { self.old.stage ≡ Stage.Up → self.new.stage ≡ Stage.Broken }
        ensures stays { self.old.stage ≢ Stage.Up → self.new.stage ≡ self.old.stage }
        ensures age { age self.old.stage ≤ age self.new.stage }
    {
        if self.is_up() {
            self.close(Stage::Broken);
        }
    }

    /// The other was cut.
    pub(crate) fn cut(&mut self)
        ensures cut { self.new.stage ≡ Stage.Cut }
        ensures age { age self.old.stage ≤ age self.new.stage }
    {
        self.close(Stage::Cut);
    }

    // Nothing comes or goes any more.
    fn close(&mut self, stage: Stage)
        ensures stage { self.new.stage ≡ stage }
        ensures outbox { self.new.outbox ≡ [] }
        ensures pipe { self.new.pipe ≡ None }
        ensures returned { self.new.returned ≡ None }
    {
        self.stage = stage;
        self.pipe = None;
        self.returned = None;
        self.outbox = Outbox::new(self.alloc);
    }
}
