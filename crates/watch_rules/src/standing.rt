/// What is kept of a member.
#[derive(Clone, Copy, Debug, PartialEq, Eq)]
pub struct Standing {
    /// It was there once.
    pub seen: bool,
    /// It is there.
    pub alive: bool,
    /// It is dead for ever.
    pub dead: bool,
}

impl Standing {
    ghost use Rattle.std.specs.Prelude.{◌≡◌};
    ghost use Rattle.watch_rules.specs.Judging.{is_living, is_missing};

    /// Whether it lives.
    pub(crate) fn is_living(self) -> bool
        ensures { result ≡ is_living self }
    {
        self.alive && !self.dead
    }

    /// Whether it was there once and isn't any more, and isn't dead yet.
    pub(crate) fn is_missing(self) -> bool
        ensures { result ≡ is_missing self }
    {
        self.seen && !self.alive && !self.dead
    }
}
