ghost use Rattle.std.specs.Prelude.{◌≡◌, ◌+◌, ◌<◌, ◌≤◌, [], length, replicate, IfOk, OnOk};
ghost use Rattle.group_types.specs.Dimensions.{space_of};
ghost use Rattle.erasure_code.specs.Spaces.{added_at, bytes_at};
ghost use Rattle.group_run.specs.Fitting.{Writes};
ghost use Rattle.group_run.specs.Rows.{block_in};

use group_calls::Found;
use group_message::{Body, Update};
use group_types::{ByteList, Partition, Payload, ProcessId, Run, Shape};
use head_service::Beneath;
use std::alloc::{AllocError, Global};
use std::marker::Model;
use value_space::ValueSpace;

/// The bytes of a data process: the values of its partition, of which each stands at its address.
#[derive(Drop)]
pub struct Values {
    shape: Shape,
    number: u32,
    space: ValueSpace,
}

impl Model for Values {
    ghost use Rattle.std.specs.Prelude.{◌≡◌};
    ghost use Rattle.data_process.specs.Values.{DataHolding};

    ghost Value = { DataHolding };

    ghost view = { λ v. record { number = v.number; space = v.space } };

    ghost invariant = { λ v. v.space.shape ≡ v.shape };
}

impl Values {
    /// The values of a data process at the start: none, over a space of zeros with no page.
    pub fn new(alloc: Global, shape: Shape, number: u32) -> Result<Values, AllocError>
        ensures { IfOk result (λ values. values ≡ record { number = number; space = record { shape = shape; bytes = replicate (space_of shape) 0; made = [] } }) }
    {
        let space = ValueSpace::new(alloc, shape)?;
        Ok(Values {
            shape,
            number,
            space,
        })
    }

    /// The shape of the group.
    pub fn shape(&self) -> Shape
        ensures { result ≡ self.now.space.shape }
    {
        self.shape
    }

    /// The number of the data process, which is that of its partition.
    pub fn number(&self) -> u32
        ensures { result ≡ self.now.number }
    {
        self.number
    }

    /// How many pages were made.
    pub fn made(&self) -> u32
        ensures { result ≡ length self.now.space.made }
    {
        self.space.made()
    }

    /// The bytes of a run.
    pub fn bytes(&self, run: Run) -> Result<Payload, AllocError>
        requires { run.at + run.len ≤ space_of self.now.space.shape }
        ensures { IfOk result (λ bytes. bytes ≡ bytes_at run.at run.len self.now.space.bytes) }
    {
        Payload::from_vec(Vec::from(self.space.copy(run)?))
    }

    /// The bytes of a block.
    pub fn block(&self, block: u32) -> Result<ByteList, AllocError>
        requires { block < self.now.space.shape.blocks }
        ensures { IfOk result (λ bytes. bytes ≡ block_in self.now.space.shape block self.now.space.bytes) }
    {
        let len = self.shape.block();
        self.space.copy(Run {
            at: block * len,
            len,
        })
    }
}

impl Beneath for Values {
    ghost use Rattle.data_process.specs.Values.{storage_of};

    ghost storage = { λ v. storage_of v };

    fn name(&self) -> ProcessId {
        ProcessId::DataNode(self.number)
    }

    fn space(&self) -> u32 {
        self.shape.space()
    }

    fn find(&self, _: Partition, run: Run) -> Result<Found, AllocError> {
        Ok(Found::Bytes(self.space.copy(run)?))
    }

    fn reserve(&mut self, _: Partition, update: &Update) -> Result<(), AllocError> {
        if let Body::Put { run, .. } = &update.body {
            self.space.reserve(*run)?;
        }
        Ok(())
    }

    fn add(&mut self, _: Partition, update: &Update) {
        if let Body::Put { run, delta, .. } = &update.body {
            self.space.apply(*run, delta);
        }
    }
}
