ghost use Rattle.std.specs.Prelude.{◌≡◌, ◌<◌};
ghost use Rattle.group_run.specs.Replica.{callers};

use crate::calling::make_call;
use crate::drain::MOST_EVENTS;
use crate::failing::fail_one;
use front_end::Caller;
use group_core::World;
use group_types::ProcessId;
use memc_proto::{CallEnd, FailEnd};
use memc_table::Op;
use std::alloc::AllocError;
use std::marker::Model;

/// Makes the calls of a connection over one group, as one of its callers.
#[derive(Drop)]
pub struct WorldCaller {
    world: World,
    caller: u32,
    control: bool,
}

impl Model for WorldCaller {
    ghost use Rattle.std.specs.Prelude.{◌<◌};
    ghost use Rattle.group_run.specs.Replica.{callers};
    ghost use Rattle.world_caller.specs.Callers.{GroupCaller};

    ghost Value = { GroupCaller };

    ghost view = { λ c. record { world = c.world; caller = c.caller; control = c.control } };

    ghost invariant = { λ c. c.caller < callers };
}

impl WorldCaller {
    /// A caller of a group, which takes orders that a process fail where `control` is on.
    pub fn new(world: World, caller: u32, control: bool) -> WorldCaller
        requires { caller < callers }
        ensures { result ≡ record { world = world; caller = caller; control = control } }
    {
        WorldCaller {
            world,
            caller,
            control,
        }
    }

    /// The group, as the calls left it.
    pub fn into_world(self) -> World
        ensures { result ≡ self.world }
    {
        self.world
    }
}

impl Caller for WorldCaller {
    ghost use Rattle.world_caller.specs.Behind.{IsLaterGroup, world_onward, world_order, world_ways};

    ghost ways = { world_ways };

    ghost later = { IsLaterGroup };

    ghost order = { world_order };

    ghost onward = { world_onward };

    fn call(&mut self, op: &Op) -> Result<CallEnd, AllocError> {
        make_call(&mut self.world, self.caller, op)
    }

    fn fail(&mut self, at: ProcessId, keep: u32) -> Result<FailEnd, AllocError> {
        if !self.control {
            return Ok(FailEnd::Off);
        }
        if !self.world.has(at) {
            return Ok(FailEnd::NoProcess);
        }
        if MOST_EVENTS <= self.world.events() {
            return Ok(FailEnd::Worn);
        }
        fail_one(&mut self.world, at, keep)
    }
}
