use std::marker::Model;

/// How many connections a worker took of its inbox that the inbox counts as open. It grows by one that is taken, and gets less
/// only where the inbox is told.
#[derive(Drop)]
pub(crate) struct Share {
    count: usize,
}

impl Model for Share {
    ghost use Rattle.std.specs.Prelude.{ℕ};

    ghost Value = { ℕ };

    ghost view = { λ s. s.count };
}

impl Share {
    ghost use Rattle.std.specs.Prelude.{◌≡◌, ◌+◌, ◌-◌, IfSome};

    /// None.
    pub(crate) fn none() -> Share
        ensures { result ≡ 0 }
    {
        Share { count: 0 }
    }

    /// The share with one more.
    pub(crate) fn one_more(&self) -> Option<Share>
        ensures { IfSome result (λ more. more ≡ self.now + 1) }
    {
        let count = self.count.checked_add(1)?;
        Some(Share { count })
    }

    /// Takes so many away, of those that there are, and says how many.
    pub(crate) fn give_back(&mut self, count: usize) -> usize
        ensures left { self.new ≡ self.old - count }
        ensures given { self.new + result ≡ self.old }
    {
        let given = count.min(self.count);
        self.count -= given;
        given
    }
}
