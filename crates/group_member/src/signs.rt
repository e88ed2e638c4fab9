ghost use Rattle.std.specs.Prelude.{◌≡◌, ◌↔◌, ◌+◌, ◌-◌, ◌<◌, ◌^◌, max, length, replicate, nat_lt, IsTrue, IfOk};
ghost use Rattle.group_types.specs.Lists.{at, put};

use group_types::Shape;
use std::alloc::{AllocError, Global};
use std::marker::Model;

/// How many pings a member has sent, and how many of them each other has answered, by index: a pong answers its ping and
/// all before it.
#[derive(Drop)]
pub struct OwnSigns {
    pinged: u64,
    answered: Vec<u64>,
}

impl Model for OwnSigns {
    ghost use Rattle.std.specs.Prelude.{◌<◌, ◌^◌};
    ghost use Rattle.group_member.specs.Standing as standing;

    ghost Value = { standing.OwnSigns };

    ghost view = { λ s. record { pinged = s.pinged; answered = s.answered.items } };

    ghost invariant = { λ s. s.pinged < 2 ^ 64 };
}

impl OwnSigns {
    /// Those at the start: no ping is sent.
    pub fn new(alloc: Global, shape: Shape) -> Result<OwnSigns, AllocError>
        ensures { IfOk result (λ s. s ≡ record { pinged = 0; answered = replicate (shape.k + shape.m) 0 }) }
    {
        Ok(OwnSigns {
            pinged: 0,
            answered: vec![in alloc; 0; (shape.k() + shape.m()) as usize]?,
        })
    }

    /// How many pings are sent: the number of the next.
    pub fn pinged(&self) -> u64
        ensures { result ≡ self.now.pinged }
    {
        self.pinged
    }

    /// Whether a ping has a number left.
    pub fn may_ping(&self) -> bool
        ensures { IsTrue result ↔ (self.now.pinged < 2 ^ 64 - 1) }
    {
        self.pinged < u64::MAX
    }

    /// A ping is sent: its number.
    pub fn ping(&mut self) -> u64
        requires { self.old.pinged < 2 ^ 64 - 1 }
        ensures number { result ≡ self.old.pinged }
        ensures sent { self.new ≡ record self.old { pinged = self.old.pinged + 1 } }
    {
        let number = self.pinged;
        self.pinged += 1;
        number
    }

    /// The process at an index has answered a ping, and all before it.
    #[tactic(auto, using(group_types::proofs::Lists::set_put, group_types::proofs::Lists::at_index))]
    pub fn count(&mut self, x: u32, ping: u64)
        requires index { x < length self.old.answered }
        requires sent { ping < self.old.pinged }
        ensures { self.new ≡ record self.old {
          answered
              = put 0 self.old.answered x (max (at 0 self.old.answered x) (ping + 1));
        } }
    {
        let x = x as usize;
        self.answered[x] = self.answered[x].max(ping + 1);
    }

    /// Whether the process at an index has answered a ping, or a later one.
    #[tactic(auto, using(group_types::proofs::Lists::at_index))]
    pub fn has_answered(&self, x: u32, ping: u64) -> bool
        requires { x < length self.now.answered }
        ensures { result ≡ nat_lt ping (at 0 self.now.answered x) }
    {
        ping < self.answered[x as usize]
    }
}
