ghost use Rattle.std.specs.Prelude.{◌≡◌, ◌<◌, IfOk};
ghost use Rattle.group_types.specs.Lists.{at};
ghost use Rattle.group_run.specs.World.{opening};
ghost use Rattle.group_eras.specs.Eras.{first_era};
ghost use Rattle.group_eras.specs.Promise.{HasPromise, IsLed};

use crate::changing::{Lowered, base_of};
use group_calls::Entry;
use group_core::World;
use group_eras::laws::eras_are_runs;
use group_types::Partition;
use std::alloc::{AllocError, Global};
use std::marker::Model;

/// A group over eras: the current world, the base of each partition, the logs of past eras as they are told, and the
/// calls of the current era whose ops went in lowered.
#[derive(Drop)]
pub struct Regroup {
    pub(crate) alloc: Global,
    pub(crate) world: World,
    pub(crate) bases: Vec<u64>,
    pub(crate) past: Vec<Vec<Entry>>,
    pub(crate) lowered: Vec<Lowered>,
}

impl Model for Regroup {
    ghost use Rattle.std.specs.Prelude.{map};
    ghost use Rattle.group_eras.specs.Eras.{Eras};
    ghost use Rattle.group_regroup.specs.Kept.{AreLed, eras_of};

    ghost Value = { Eras };

    ghost view = { λ r. eras_of r.world r.bases.items (map (λ log. log.items) r.past.items) r.lowered.items };

    ghost invariant = { λ r. AreLed r.world r.bases.items (map (λ log. log.items) r.past.items) r.lowered.items };
}

impl Regroup {
    /// The first era, of a world in which no event was made.
    pub fn new(alloc: Global, world: World) -> Result<Regroup, AllocError>
        requires { world ≡ opening world.shape }
        ensures { IfOk result (λ regroup. regroup ≡ first_era world) }
    {
        let bases = vec![in alloc; 0; world.shape().k() as usize]?;
        Ok(Regroup {
            alloc,
            world,
            bases,
            past: Vec::new(alloc),
            lowered: Vec::new(alloc),
        })
    }

    /// The current world.
    pub fn world(&self) -> &World
        ensures { result.now ≡ self.now.world }
    {
        &self.world
    }

    /// The base of a partition.
    pub fn base(&self, partition: Partition) -> u64
        requires { partition.0 < self.now.world.shape.k }
        ensures { result ≡ at 0 self.now.bases partition.0 }
    {
        base_of(&self.bases, partition.0)
    }

    /// Moves led to the eras: so their log is legal, and the current era is a run of its own, with the whole headline.
    pub fn run(&self)
        ensures led { IsLed self.now }
        ensures promise { HasPromise self.now }
    {
        eras_are_runs();
        let _world = &self.world;
    }
}
