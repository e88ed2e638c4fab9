ghost use Rattle.std.specs.Prelude.{◌≡◌, ◌≤◌, ◌^◌};

use crate::act::Act;
use std::alloc::AllocError;
use std::marker::Model;

/// A call's act and its moment in seconds, at most 2^62.
#[derive(Debug, Drop, PartialEq, Eq)]
pub struct Op {
    moment: u64,
    act: Act,
}

impl Model for Op {
    ghost use Rattle.std.specs.Prelude.{◌≤◌, ◌^◌};
    ghost use Rattle.memc_table.specs.Asked.{Asked};

    ghost Value = { Asked };

    ghost view = { λ op. record { moment = op.moment; act = op.act } };

    ghost invariant = { λ op. op.moment ≤ 2 ^ 62 };

    ghost inverse = { λ asked. record { moment = asked.moment; act = asked.act } };
}

impl Op {
    pub fn new(now: u64, act: Act) -> Op
        requires { now ≤ 2 ^ 62 }
        ensures moment { result.moment ≡ now }
        ensures act { result.act ≡ act }
    {
        Op { moment: now, act }
    }

    /// The moment in seconds.
    pub fn now(&self) -> u64
        ensures value { result ≡ self.now.moment }
        ensures within { result ≤ 2 ^ 62 }
    {
        self.moment
    }

    /// What is asked.
    pub fn act(&self) -> &Act
        ensures { result.now ≡ self.now.act }
    {
        &self.act
    }
}

impl Clone for Op {
    ghost is_clone = { λ op copy. copy ≡ op };

    fn clone(&self) -> Result<Op, AllocError> {
        Ok(Op {
            moment: self.moment,
            act: self.act.clone()?,
        })
    }
}
