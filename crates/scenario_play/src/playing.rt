ghost use Rattle.std.specs.Prelude.{◌≡◌, ◌+◌, ◌≤◌, ◌<◌, ◌^◌, ◌++◌, ◌∷◌, [], IfOk, OnOk};
ghost use Rattle.group_types.specs.Dimensions.{space_of};
ghost use Rattle.group_types.specs.Names.{IsProcess};
ghost use Rattle.group_run.specs.Headline.{MayCome};
ghost use Rattle.group_run.specs.World.{opening, step, turns_from, world_after};
ghost use Rattle.group_run.specs.Shown.{held};
ghost use Rattle.scenario_run.specs.Placing.{placed_text};
ghost use Rattle.scenario_run.specs.Playing.{drained_text, draining_unless_down, look, turn_text};
ghost use Rattle.scenario_play.specs.Group.{IsLightPlay};

use crate::deliveries::drain;
use crate::entries::{write_count, write_last};
use crate::making::{answer_line, make_event};
use crate::placing::write_placed;
use crate::showing::write_look;
use group_calls::Event;
use group_core::World;
use group_types::{ProcessId, Run, Shape};
use memc_table::{Act, Op};
use std::alloc::{AllocError, Global};
use std::marker::Model;

/// The group of a script, and the moment of the asks that follow.
#[derive(Drop)]
pub(crate) struct Play {
    pub(crate) world: World,
    pub(crate) moment: u64,
}

impl Model for Play {
    ghost use Rattle.std.specs.Prelude.{◌≤◌, ◌^◌};
    ghost use Rattle.scenario_run.specs.Playing as script;

    ghost Value = { script.Play };

    ghost view = { λ p. record { world = p.world; moment = p.moment } };

    ghost invariant = { λ p. p.moment ≤ 2 ^ 62 };
}

impl Play {
    /// A group at its start.
    pub(crate) fn new(alloc: Global, shape: Shape) -> Result<Play, AllocError>
        ensures { IfOk result (λ play. play ≡ record { world = opening shape; moment = 0 }) }
    {
        Ok(Play {
            world: World::new(alloc, shape)?,
            moment: 0,
        })
    }

    /// The group's shape.
    pub(crate) fn shape(&self) -> Shape
        ensures { result ≡ self.now.world.shape }
    {
        self.world.shape()
    }

    /// The op of an act at this moment.
    pub(crate) fn op(&self, act: Act) -> Op
        ensures { result ≡ record { moment = self.now.moment; act = act } }
    {
        Op::new(self.moment, act)
    }

    /// Sets the moment of the asks that follow.
    pub(crate) fn set_moment(&mut self, moment: u64)
        requires { moment ≤ 2 ^ 62 }
        ensures { self.new ≡ record { world = self.old.world; moment = moment } }
    {
        self.moment = moment;
    }

    /// An event is made: its answer on a line, and what it logged.
    pub(crate) fn make(&mut self, alloc: Global, event: Event) -> Result<Vec<u8>, AllocError>
        requires may { MayCome self.old.world event }
        requires light { IsLightPlay (2 ^ 61) self.old }
        ensures play { OnOk result (self.new ≡ record {
          world =
              (step self.old.world event).world;
          moment = self.old.moment;
        }) }
        ensures text { IfOk result (λ text. text.items ≡ turn_text (step self.old.world event).turn) }
    {
        let out = make_event(&mut self.world, event)?;
        let logged = out.logged;
        let mut text = answer_line(alloc, out)?;
        write_last(alloc, b"= ", self.world.log(), logged, &mut text)?;
        Ok(text)
    }

    /// Messages are delivered until none is left: what that logged, and how many there were.
    pub(crate) fn drain(&mut self, alloc: Global) -> Result<Vec<u8>, AllocError>
        requires light { IsLightPlay (2 ^ 61) self.old }
        ensures play { OnOk result (self.new ≡ record {
          world = world_after self.old.world
              (draining_unless_down self.old.world);
          moment = self.old.moment;
        }) }
        ensures text { IfOk result (λ text. text.items
            ≡ drained_text (turns_from self.old.world (draining_unless_down self.old.world))) }
    {
        let mut text = Vec::new(alloc);
        let count = drain(alloc, &mut self.world, &mut text)?;
        write_count(alloc, count, &mut text)?;
        Ok(text)
    }

    /// The bytes of a run of a process's space, with its stamp.
    pub(crate) fn show(&self, alloc: Global, at: ProcessId, run: Run) -> Result<Vec<u8>, AllocError>
        requires process { IsProcess self.now.world.shape at }
        requires run { run.at + run.len ≤ space_of self.now.world.shape }
        ensures { IfOk result (λ text. text.items ≡ look self.now.world at (held self.now.world at run) ++ 10 ∷ []) }
    {
        let mut text = write_look(alloc, &self.world, at, run)?;
        text.push(b'\n')?;
        Ok(text)
    }

    /// The runs of the updates that were logged.
    pub(crate) fn places(&self, alloc: Global) -> Result<Vec<u8>, AllocError>
        ensures { IfOk result (λ text. text.items ≡ placed_text [] self.now.world) }
    {
        write_placed(alloc, &self.world)
    }
}
