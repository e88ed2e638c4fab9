ghost use Rattle.std.specs.Prelude.{◌≡◌, ◌≤◌, ◌<◌, ◌-◌, ◌^◌, suc, length, None, IfOk, OnErr};
ghost use Rattle.group_run.specs.Headline.{MayCome};
ghost use Rattle.group_run.specs.World.{call_of, group_step, opening, step};

use crate::members::Members;
use group_calls::{Event, Out};
use group_ledger::Ledger;
use group_types::Shape;
use std::alloc::{AllocError, Global};
use std::marker::Model;

/// A group that a run of events led to.
#[derive(Drop)]
pub struct World {
    pub(crate) nodes: Members,
    pub(crate) ledger: Ledger,
}

impl Model for World {
    ghost use Rattle.group_core.specs.Runs.{IsGroup, group_from};
    ghost use Rattle.group_run.specs.World as machine;

    ghost Value = { machine.World };

    ghost view = { λ w. group_from w.nodes w.ledger.books };

    ghost invariant = { λ w. IsGroup w.nodes w.ledger.books };
}

impl World {
    /// The group at the start.
    pub fn new(alloc: Global, shape: Shape) -> Result<World, AllocError>
        ensures { IfOk result (λ world. world ≡ opening shape) }
    {
        Ok(World {
            nodes: Members::new(alloc, shape)?,
            ledger: Ledger::new(alloc, shape)?,
        })
    }

    /// What an event makes of the group. After want of memory nothing but room has changed.
    pub fn step(&mut self, event: &Event) -> Result<Out, AllocError>
        requires events { self.old.events < 2 ^ 62 }
        requires may { MayCome self.old event.now }
        ensures world { IfOk result (λ _. self.new ≡ (step self.old event.now).world) }
        ensures answer { IfOk result (λ out. out.answer ≡ (step self.old event.now).turn.answer) }
        ensures logged { IfOk result (λ out. out.logged ≡ length (step self.old event.now).turn.logged) }
        ensures err { OnErr result (self.new ≡ self.old) }
    {
        match event {
            Event::Ask { caller, op, at } => self.ask(*caller, op, *at),
            _ => self.pass(event),
        }
    }

    // What an event that asks no call makes of the group.
    fn pass(&mut self, event: &Event) -> Result<Out, AllocError>
        requires events { self.old.events < 2 ^ 62 }
        requires may { MayCome self.old event.now }
        requires no_call { call_of self.old event.now ≡ None }
        ensures world { IfOk result (λ _. self.new ≡ (step self.old event.now).world) }
        ensures answer { IfOk result (λ out. out.answer ≡ (step self.old event.now).turn.answer) }
        ensures logged { IfOk result (λ out. out.logged ≡ length (step self.old event.now).turn.logged) }
        ensures err { OnErr result (self.new ≡ self.old) }
    {
        let most = self.settles(event);
        self.ledger.reserve(most)?;
        let out = self.nodes.pass(&self.ledger, event)?;
        let logged = self.ledger.record(None, &out.answer, &out.settled);
        Ok(Out {
            answer: out.answer,
            logged,
        })
    }

    // No more updates but one are settled by an event, or as many as a list is asked to have room for.
    fn settles(&self, event: &Event) -> usize
        requires { MayCome self.now event.now }
        ensures { result < 2 ^ 64 - 1 → length (group_step self.now event.now).settled ≤ suc result }
    {
        match event {
            Event::Ask { at, .. } => self.most_asked(*at),
            Event::Deliver { to, .. } => self.nodes.node(*to).waiting(),
            Event::Collect { .. } => 0,
            Event::Fail { .. } => 0,
            Event::Flush { .. } => 0,
            Event::Trace { .. } => 0,
        }
    }
}
