ghost use Rattle.std.specs.Prelude.{◌≡◌};
ghost use Rattle.link_frames.specs.Requests.{wished_request};

use crate::wish::Wish;
use std::marker::Model;

/// A request of a gateway, as `group_wire` defines it: of which caller, under which position, and what is asked.
#[derive(Debug, Drop)]
pub struct Request {
    caller: u32,
    call: u64,
    wish: Wish,
}

impl Model for Request {
    ghost use Rattle.group_wire.specs.State as wire;
    ghost use Rattle.link_frames.specs.Requests.{wished_request};

    ghost Value = { wire.Request };

    ghost view = { λ r. wished_request r.caller r.call r.wish };
}

impl Request {
    pub fn new(caller: u32, call: u64, wish: Wish) -> Request
        ensures { result ≡ wished_request caller call wish }
    {
        Request { caller, call, wish }
    }

    /// The caller, the position of its call, and what is asked.
    pub fn parts(&self) -> (u32, u64, &Wish)
        ensures { self.now ≡ wished_request result.0 result.1 result.2.now }
    {
        (self.caller, self.call, &self.wish)
    }
}
