ghost use Rattle.std.specs.Prelude.{◌≡◌};

use group_calls::Answer;
use std::marker::Model;

/// What a member tells a gateway of a call, as `group_wire` defines it: the answer to its ask, or what came of it later.
#[derive(Debug, Drop)]
pub struct Told {
    caller: u32,
    call: u64,
    traced: bool,
    answer: Answer,
}

impl Model for Told {
    ghost use Rattle.group_wire.specs.State as wire;

    ghost Value = { wire.Told };

    ghost view = { λ t. record { caller = t.caller; call = t.call; traced = t.traced; answer = t.answer } };
}

impl Told {
    pub fn new(caller: u32, call: u64, traced: bool, answer: Answer) -> Told
        ensures { result ≡ record { caller = caller; call = call; traced = traced; answer = answer } }
    {
        Told {
            caller,
            call,
            traced,
            answer,
        }
    }

    /// The caller that is told.
    pub fn caller(&self) -> u32
        ensures { result ≡ self.now.caller }
    {
        self.caller
    }

    /// The position of its call.
    pub fn call(&self) -> u64
        ensures { result ≡ self.now.call }
    {
        self.call
    }

    /// Whether the call was looked for, and not asked.
    pub fn traced(&self) -> bool
        ensures { result ≡ self.now.traced }
    {
        self.traced
    }

    /// What it is answered.
    pub fn answer(&self) -> &Answer
        ensures { result.now ≡ self.now.answer }
    {
        &self.answer
    }
}
