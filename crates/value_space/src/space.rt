ghost use Rattle.std.specs.Prelude.{◌≡◌, ◌+◌, ◌*◌, ◌≤◌, [], length, replicate, IfOk, OnOk, OnErr};
ghost use Rattle.std.specs.List.Sorted.{IsStrictlyIncreasing};
ghost use Rattle.group_types.specs.Dimensions.{space_of};
ghost use Rattle.erasure_code.specs.Spaces.{added_at, bytes_at};
ghost use Rattle.field_byte.specs.Vectors.{add_bytes};
ghost use Rattle.page_map.specs.Pages.{HasPages, SameDimensions, numbers_in};
ghost use Rattle.page_map.specs.Spaces.{AllMade, LiesIn, MakesOnly, page_bytes};

use group_types::{ByteList, Payload, Run, Shape};
use lane_kernel::xor_into;
use page_map::Pages;
use std::alloc::{AllocError, Global};
use std::marker::Model;

/// The bytes of a data process. A page that isn't there reads as zeros.
#[derive(Debug, Drop)]
pub struct ValueSpace {
    shape: Shape,
    pages: Pages,
}

impl Model for ValueSpace {
    ghost use Rattle.std.specs.Prelude.{◌≡◌};
    ghost use Rattle.value_space.specs.Space.{Space, space_in};

    ghost Value = { Space };

    ghost view = { λ s. space_in s.shape s.pages };

    ghost invariant = { λ s. (s.pages.blocks ≡ s.shape.blocks) × (s.pages.block ≡ s.shape.block) × (s.pages.room ≡ 0) };
}

impl ValueSpace {
    /// A space of zeros, with no page.
    pub fn new(alloc: Global, shape: Shape) -> Result<ValueSpace, AllocError>
        ensures shape { IfOk result (λ space. space.shape ≡ shape) }
        ensures bytes { IfOk result (λ space. space.bytes ≡ replicate (space_of shape) 0) }
        ensures made { IfOk result (λ space. space.made ≡ []) }
    {
        Ok(ValueSpace {
            shape,
            pages: Pages::new(alloc, shape.blocks(), shape.block())?,
        })
    }

    /// How many pages were made. No two are of one block.
    pub fn made(&self) -> u32
        ensures count { result ≡ length self.now.made }
        ensures rising { IsStrictlyIncreasing self.now.made }
    {
        self.pages.made()
    }

    /// Makes the pages of the run that aren't there.
    pub fn reserve(&mut self, run: Run) -> Result<(), AllocError>
        requires { LiesIn run self.old.shape }
        ensures shape { self.new.shape ≡ self.old.shape }
        ensures bytes { self.new.bytes ≡ self.old.bytes }
        ensures ready { OnOk result (AllMade self.new.shape.block run self.new.made) }
        ensures made { OnOk result (MakesOnly self.old.shape.block run self.old.made self.new.made) }
        ensures rising { OnOk result (IsStrictlyIncreasing self.new.made) }
        ensures err { OnErr result (self.new ≡ self.old) }
    {
        self.pages.reserve(run.at, run.len)
    }

    /// Adds a difference to the bytes of the run. It takes no memory.
    pub fn apply(&mut self, run: Run, delta: &Payload)
        requires within { LiesIn run self.old.shape }
        requires length { length delta.now ≡ run.len }
        requires ready { AllMade self.old.shape.block run self.old.made }
        ensures shape { self.new.shape ≡ self.old.shape }
        ensures bytes { self.new.bytes ≡ added_at run.at delta.now self.old.bytes }
        ensures made { self.new.made ≡ self.old.made }
    {
        add(&mut self.pages, run.at, delta.bytes());
    }

    /// The bytes of the run.
    pub fn copy(&self, run: Run) -> Result<ByteList, AllocError>
        requires { LiesIn run self.now.shape }
        ensures bytes { IfOk result (λ bytes. bytes ≡ bytes_at run.at run.len self.now.bytes) }
        ensures length { IfOk result (λ bytes. length bytes ≡ run.len) }
    {
        self.pages.range(run.at, run.len)
    }

    /// What has to be added to the bytes of the run to make them this value.
    pub fn delta_for(&self, run: Run, value: &Payload) -> Result<Payload, AllocError>
        requires within { LiesIn run self.now.shape }
        requires length { length value.now ≡ run.len }
        ensures { IfOk result (λ delta. delta ≡ add_bytes value.now (bytes_at run.at run.len self.now.bytes)) }
    {
        let mut bytes = Vec::from(self.copy(run)?);
        xor_into(value.bytes(), &mut bytes);
        Payload::from_vec(bytes)
    }
}

fn add(pages: &mut Pages, at: u32, bytes: &[u8])
    requires within { at + length bytes.now ≤ pages.old.blocks * pages.old.block }
    requires there { HasPages pages.old at (length bytes.now) }
    ensures bytes { page_bytes pages.new ≡ added_at at bytes.now (page_bytes pages.old) }
    ensures made { numbers_in pages.new ≡ numbers_in pages.old }
    ensures dimensions { SameDimensions pages.old pages.new }
    ensures room { pages.new.room ≡ pages.old.room }
{
    pages.add(at, None, bytes);
}
