ghost use Rattle.std.specs.Prelude.{List, ◌≡◌, ◌≤◌, All, length, replicate, take, IfOk, OnOk};
ghost use Rattle.run_verify.specs.declared.change.Change.{Change};
ghost use Rattle.group_types.specs.Dimensions.{space_of};
ghost use Rattle.run_verify.specs.Changes.{space_after_changes, space_behind, written_by};
ghost use Rattle.run_verify.specs.Shadows.{Follows};
ghost use Rattle.run_verify.specs.Showing.{IsFitChange, IsFitEffect};

use crate::change::{Change, Effect};
use group_types::Shape;
use std::alloc::{AllocError, Global};

/// The space of a partition behind so many of its changes, once it is made.
#[derive(Drop)]
pub(crate) struct Shadow {
    number: usize,
    pub(crate) space: Vec<u8>,
}

impl Shadow {
    /// A shadow that isn't made yet.
    pub(crate) fn new(alloc: Global) -> Shadow
        ensures { (changes : List Change) → Follows changes result }
    {
        Shadow {
            number: 0,
            space: Vec::new(alloc),
        }
    }

    /// Moves the space to the one behind so many changes. It is made anew where it is behind more.
    pub(crate) fn go(
        &mut self,
        alloc: Global,
        shape: Shape,
        changes: &[Change],
        number: u64,
    ) -> Result<(), AllocError>
        requires follows { Follows changes.now self.old }
        requires within { number ≤ length changes.now }
        requires fit { All (IsFitChange shape) changes.now }
        ensures follows { Follows changes.now self.new }
        ensures space { OnOk result (self.new.space.items ≡ space_behind shape (take number changes.now)) }
        ensures long { OnOk result (length self.new.space.items ≡ space_of shape) }
    {
        let number = number as usize;
        if number < self.number || self.space.len() != shape.space() as usize {
            self.space = zeros(alloc, shape)?;
            self.number = 0;
        }
        self.go_on(shape, changes, number);
        Ok(())
    }

    /// Moves it on to the space behind so many changes.
    fn go_on(&mut self, shape: Shape, changes: &[Change], number: usize)
        requires follows { Follows changes.now self.old }
        requires long { length self.old.space.items ≡ space_of shape }
        requires from { self.old.number ≤ number }
        requires within { number ≤ length changes.now }
        requires fit { All (IsFitChange shape) changes.now }
        ensures follows { Follows changes.now self.new }
        ensures space { self.new.space.items ≡ space_behind shape (take number changes.now) }
        ensures long { length self.new.space.items ≡ space_of shape }
    {
        write_all(shape, &changes[self.number..number], &mut self.space);
        self.number = number;
    }
}

/// A space of zeros.
fn zeros(alloc: Global, shape: Shape) -> Result<Vec<u8>, AllocError>
    ensures space { IfOk result (λ space. space.items ≡ replicate (space_of shape) 0) }
    ensures long { IfOk result (λ space. length space.items ≡ space_of shape) }
{
    let space = vec![in alloc; 0; shape.space() as usize]?;
    Ok(space)
}

/// Writes what changes write.
fn write_all(shape: Shape, changes: &[Change], space: &mut Vec<u8>)
    requires fit { All (IsFitChange shape) changes.now }
    requires long { length space.old.items ≡ space_of shape }
    ensures space { space.new.items ≡ space_after_changes space.old.items changes.now }
    ensures long { length space.new.items ≡ space_of shape }
{
    let mut rest = changes;
    'changes: while let [change, more @ ..] = rest {
        write(shape, &change.effect, space);
        rest = more;
    }
}

/// Writes what an effect writes.
fn write(shape: Shape, effect: &Effect, space: &mut Vec<u8>)
    requires fit { IsFitEffect shape effect.now }
    requires long { length space.old.items ≡ space_of shape }
    ensures space { space.new.items ≡ written_by effect.now space.old.items }
    ensures long { length space.new.items ≡ space_of shape }
{
    if let Effect::Writes(value, Some(run)) = effect {
        let at = run.at as usize;
        space[at..at + run.len as usize].copy_from_slice(value.bytes());
    }
}
