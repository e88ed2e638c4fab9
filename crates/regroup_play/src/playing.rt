ghost use Rattle.std.specs.Prelude.{◌≡◌, ◌≤◌, ◌^◌, IfOk};
ghost use Rattle.group_run.specs.World.{opening};
ghost use Rattle.group_eras.specs.Eras.{first_era};

use group_core::World;
use group_regroup::Regroup;
use group_types::Shape;
use memc_table::{Act, Op};
use std::alloc::{AllocError, Global};
use std::marker::Model;

/// The group of a script over its eras, and the moment of the asks that follow.
#[derive(Drop)]
pub(crate) struct EraPlay {
    pub(crate) regroup: Regroup,
    pub(crate) moment: u64,
}

impl Model for EraPlay {
    ghost use Rattle.std.specs.Prelude.{◌≤◌, ◌^◌};
    ghost use Rattle.regroup_run.specs.Playing as script;

    ghost Value = { script.EraPlay };

    ghost view = { λ p. record { eras = p.regroup; moment = p.moment } };

    ghost invariant = { λ p. p.moment ≤ 2 ^ 62 };
}

impl EraPlay {
    /// A group at its start.
    pub(crate) fn new(alloc: Global, shape: Shape) -> Result<EraPlay, AllocError>
        ensures { IfOk result (λ play. play ≡ record { eras = first_era (opening shape); moment = 0 }) }
    {
        let world = World::new(alloc, shape)?;
        Ok(EraPlay {
            regroup: Regroup::new(alloc, world)?,
            moment: 0,
        })
    }

    /// The shape of the current group.
    pub(crate) fn shape(&self) -> Shape
        ensures { result ≡ self.now.eras.world.shape }
    {
        self.regroup.world().shape()
    }

    /// The op of an act at this moment.
    pub(crate) fn op(&self, act: Act) -> Op
        ensures { result ≡ record { moment = self.now.moment; act = act } }
    {
        Op::new(self.moment, act)
    }

    /// Sets the moment of the asks that follow.
    pub(crate) fn set_moment(&mut self, moment: u64)
        requires { moment ≤ 2 ^ 62 }
        ensures { self.new ≡ record { eras = self.old.eras; moment = moment } }
    {
        self.moment = moment;
    }
}
