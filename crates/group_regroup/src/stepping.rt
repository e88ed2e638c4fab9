ghost use Rattle.std.specs.Prelude.{◌≡◌, ◌<◌, ◌≤◌, ◌^◌, length, vec_len, vec_capacity, All, IfOk, OnErr};
ghost use Rattle.group_calls.specs.declared.event.Event.TheVariants as happens;
ghost use Rattle.group_run.specs.Headline.{MayCome};
ghost use Rattle.group_run.specs.World.{step};
ghost use Rattle.group_eras.specs.Eras.{MayMake, era_step};
ghost use Rattle.group_eras.specs.Told.{event_in, op_for_era, told_of_event};
ghost use Rattle.group_regroup.specs.Kept.{IsLowBase, is_low, lowered_by, lowered_until};
ghost use Rattle.group_regroup.specs.Laws.{NumbersFitAlways};

use crate::changing::{Lowered, base_of, changed_op};
use crate::regroup::Regroup;
use crate::telling::told_answer;
use group_calls::{Event, Out};
use group_core::World;
use group_types::{ProcessId, home};
use memc_table::{Act, Op};
use std::alloc::AllocError;

impl Regroup {
    /// What an event makes of the eras: the current world makes it with its own numbers. After want of memory nothing
    /// but room has changed.
    pub fn step(&mut self, event: &Event) -> Result<Out, AllocError>
        requires events { self.old.world.events < 2 ^ 62 }
        requires may { MayMake self.old event.now }
        ensures eras { IfOk result (λ _. self.new ≡ (era_step self.old event.now).eras) }
        ensures answer { IfOk result (λ out. out.answer ≡ (era_step self.old event.now).answer) }
        ensures logged { IfOk result (λ out. out.logged ≡ length (era_step self.old event.now).logged) }
        ensures err { OnErr result (self.new ≡ self.old) }
    {
        self.world.run();
        self.lowered.reserve(1)?;
        let lowered = lowered(&self.world, &self.bases, event)?;
        let out = make(&mut self.world, &self.bases, event)?;
        note(&mut self.lowered, lowered, self.world.log().len());
        Ok(out)
    }
}

// The call that an event asks, where its op goes in lowered: so far it has logged nothing.
fn lowered(world: &World, bases: &[u64], event: &Event) -> Result<Option<Lowered>, AllocError>
    requires { MayCome world.now event.now }
    ensures { IfOk result (λ lowered. lowered ≡ lowered_by world.now bases.now event.now) }
{
    match event {
        Event::Ask { caller, op, .. } => {
            if !is_low(bases, world.shape().k(), op.act()) {
                return Ok(None);
            }
            let op = op.clone()?;
            let place = world.log().len();
            Ok(Some(Lowered {
                from: place,
                until: place,
                caller: *caller,
                call: world.asks(*caller),
                op,
            }))
        }
        _ => Ok(None),
    }
}

// The current world makes an event with its own numbers, and what comes of it is told.
fn make(world: &mut World, bases: &[u64], event: &Event) -> Result<Out, AllocError>
    requires events { world.old.events < 2 ^ 62 }
    requires low { All IsLowBase bases.now }
    requires may { MayCome world.old event.now }
    ensures world { IfOk result (λ _. world.new
        ≡ (step world.old (event_in bases.now world.old.shape.k event.now)).world) }
    ensures answer { IfOk result (λ out. out.answer ≡ told_of_event bases.now world.old.shape.k event.now
        (step world.old (event_in bases.now world.old.shape.k event.now)).turn.answer) }
    ensures logged { IfOk result (λ out. out.logged
        ≡ length (step world.old (event_in bases.now world.old.shape.k event.now)).turn.logged) }
    ensures err { OnErr result (world.new ≡ world.old) }
{
    match event {
        Event::Ask { caller, op, at } => ask(world, bases, *caller, op, *at),
        _ => world.step(event),
    }
}

// The same of an ask.
fn ask(
    world: &mut World,
    bases: &[u64],
    caller: u32,
    op: &Op,
    at: ProcessId,
) -> Result<Out, AllocError>
    requires events { world.old.events < 2 ^ 62 }
    requires low { All IsLowBase bases.now }
    requires may { MayCome world.old (happens.Ask caller op.now at) }
    ensures world { IfOk result (λ _. world.new ≡ (step world.old
        (happens.Ask caller (op_for_era bases.now world.old.shape.k op.now) at)).world) }
    ensures answer { IfOk result (λ out. out.answer ≡ told_of_event bases.now world.old.shape.k
        (happens.Ask caller op.now at) (step world.old
        (happens.Ask caller (op_for_era bases.now world.old.shape.k op.now) at)).turn.answer) }
    ensures logged { IfOk result (λ out. out.logged ≡ length
        (step world.old (happens.Ask caller (op_for_era bases.now world.old.shape.k op.now) at)).turn.logged) }
    ensures err { OnErr result (world.new ≡ world.old) }
{
    world.run();
    numbers_fit();
    let k = world.shape().k();
    let partition = home(op.act().key(), k).0;
    let op = changed_op(bases, k, op)?;
    let out = happen(world, Event::Ask { caller, op, at })?;
    Ok(Out {
        answer: told_answer(bases, partition, out.answer),
        logged: out.logged,
    })
}

// Whether an op goes in lowered: a cas whose number isn't above the base.
fn is_low(bases: &[u64], k: u32, act: &Act) -> bool
    requires { 1 ≤ k }
    ensures { result ≡ is_low bases.now k act.now }
{
    match act {
        Act::Cas { key, cas, .. } => *cas <= base_of(bases, home(key, k).0),
        _ => false,
    }
}

// A call that went in lowered has logged what stands below a place. It takes no memory.
fn note(list: &mut Vec<Lowered>, lowered: Option<Lowered>, place: usize)
    requires room { vec_len list.old < vec_capacity list.old }
    ensures { list.new.items ≡ lowered_until list.old.items lowered place }
{
    if let Some(mut lowered) = lowered {
        lowered.until = place;
        list.push_reserved(lowered);
    }
}

// The world makes an event.
fn happen(world: &mut World, event: Event) -> Result<Out, AllocError>
    requires events { world.old.events < 2 ^ 62 }
    requires may { MayCome world.old event }
    ensures world { IfOk result (λ _. world.new ≡ (step world.old event).world) }
    ensures answer { IfOk result (λ out. out.answer ≡ (step world.old event).turn.answer) }
    ensures logged { IfOk result (λ out. out.logged ≡ length (step world.old event).turn.logged) }
    ensures err { OnErr result (world.new ≡ world.old) }
{
    let out = world.step(&event);
    drop(event);
    out
}

// No number of an answer has more than 64 bits, told with a base that is low.
fn numbers_fit()
    ensures { NumbersFitAlways }
{}
