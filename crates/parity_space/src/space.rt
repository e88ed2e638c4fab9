ghost use Rattle.std.specs.Prelude.{◌≡◌, ◌+◌, ◌*◌, ◌<◌, ◌≤◌, [], length, replicate, IfOk, OnOk, OnErr};
ghost use Rattle.std.specs.List.Sorted.{IsStrictlyIncreasing};
ghost use Rattle.group_types.specs.Dimensions.{space_of};
ghost use Rattle.erasure_code.specs.Code.{coefficient};
ghost use Rattle.erasure_code.specs.Spaces.{bytes_at};
ghost use Rattle.page_map.specs.Spaces.{AllMade, LiesIn, MakesOnly};
ghost use Rattle.parity_space.specs.Space.{ArePrepared, CanBeAdded, with_update_added};

use cauchy_code::coefficient;
use field_byte::Split;
use group_message::{Body, Update};
use group_types::{ByteList, Partition, Run, Shape};
use page_map::Pages;
use std::alloc::{AllocError, Global};
use std::marker::Model;

/// The bytes of a parity process. A page that isn't there reads as zeros.
#[derive(Debug, Drop)]
pub struct ParitySpace {
    shape: Shape,
    number: u32,
    coefs: Vec<Split>,
    pages: Pages,
}

impl Model for ParitySpace {
    ghost use Rattle.std.specs.Prelude.{◌≡◌};
    ghost use Rattle.parity_space.specs.Space.{ArePrepared, CodedSpace, parity_space_in};

    ghost Value = { CodedSpace };

    ghost view = { λ s. parity_space_in s.shape s.number s.pages };

    ghost invariant = { λ s. ArePrepared s.shape s.number s.coefs.items × (s.pages.blocks ≡ s.shape.blocks) × (s.pages.block ≡ s.shape.block) × (s.pages.room ≡ 0) };
}

impl ParitySpace {
    /// The space of parity process `number`, of zeros and with no page.
    pub fn new(alloc: Global, shape: Shape, number: u32) -> Result<ParitySpace, AllocError>
        requires { number < shape.m }
        ensures shape { IfOk result (λ space. space.shape ≡ shape) }
        ensures number { IfOk result (λ space. space.number ≡ number) }
        ensures bytes { IfOk result (λ space. space.bytes ≡ replicate (space_of shape) 0) }
        ensures made { IfOk result (λ space. space.made ≡ []) }
    {
        Ok(ParitySpace {
            shape,
            number,
            coefs: coefs_of(alloc, shape, number)?,
            pages: Pages::new(alloc, shape.blocks(), shape.block())?,
        })
    }

    /// How many pages were made. No two are of one block.
    pub fn made(&self) -> u32
        ensures count { result ≡ length self.now.made }
        ensures rising { IsStrictlyIncreasing self.now.made }
    {
        self.pages.made()
    }

    /// Makes the pages of the run that aren't there.
    pub fn reserve(&mut self, run: Run) -> Result<(), AllocError>
        requires { LiesIn run self.old.shape }
        ensures shape { self.new.shape ≡ self.old.shape }
        ensures number { self.new.number ≡ self.old.number }
        ensures bytes { self.new.bytes ≡ self.old.bytes }
        ensures ready { OnOk result (AllMade self.new.shape.block run self.new.made) }
        ensures made { OnOk result (MakesOnly self.old.shape.block run self.old.made self.new.made) }
        ensures rising { OnOk result (IsStrictlyIncreasing self.new.made) }
        ensures err { OnErr result (self.new ≡ self.old) }
    {
        self.pages.reserve(run.at, run.len)
    }

    /// Adds the difference of an update of partition `d`, times its coefficient. It takes no memory.
    pub fn apply(&mut self, d: Partition, update: &Update)
        requires partition { d.0 < self.old.shape.k }
        requires ready { CanBeAdded self.old.shape self.old.made update.now.body }
        ensures shape { self.new.shape ≡ self.old.shape }
        ensures number { self.new.number ≡ self.old.number }
        ensures bytes { self.new.bytes ≡ with_update_added (coefficient self.old.shape.m self.old.number d.0) update.now.body self.old.bytes }
        ensures made { self.new.made ≡ self.old.made }
    {
        match &update.body {
            Body::Put { run, delta, .. } => {
                let coef = &self.coefs[d.0 as usize];
                self.pages.add(run.at, Some(coef), delta.bytes());
            }
            Body::Remove | Body::Touch { .. } => {}
        }
    }

    /// The bytes of the run.
    pub fn range(&self, run: Run) -> Result<ByteList, AllocError>
        requires { LiesIn run self.now.shape }
        ensures bytes { IfOk result (λ bytes. bytes ≡ bytes_at run.at run.len self.now.bytes) }
        ensures length { IfOk result (λ bytes. length bytes ≡ run.len) }
    {
        self.pages.range(run.at, run.len)
    }

    /// Reads the bytes of the run.
    pub fn read_into(&self, run: Run, into: &mut [u8])
        requires within { LiesIn run self.now.shape }
        requires length { length into.old ≡ run.len }
        ensures { into.new ≡ bytes_at run.at run.len self.now.bytes }
    {
        self.pages.read_into(run.at, into);
    }
}

// The coefficient of each partition, prepared once for all differences.
fn coefs_of(alloc: Global, shape: Shape, number: u32) -> Result<Vec<Split>, AllocError>
    requires { number < shape.m }
    ensures { IfOk result (λ coefs. ArePrepared shape number coefs.items) }
{
    let mut coefs = Vec::with_capacity(alloc, shape.k() as usize)?;
    'partitions: for d in 0..shape.k() {
        coefs.push(Split::of(coefficient(shape.m(), number, d)))?;
    }
    Ok(coefs)
}

// Tests that no value is kept beside these parts: a further field, or one of another type, does not compile.
fn keeps_no_value_beside_its_parts(space: &ParitySpace) {
    let ParitySpace {
        shape,
        number,
        coefs,
        pages,
    } = space;
    let _: &Shape = shape;
    let _: &u32 = number;
    let _: &Vec<Split> = coefs;
    let _: &Pages = pages;
}
