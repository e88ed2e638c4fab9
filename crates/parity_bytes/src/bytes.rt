ghost use Rattle.std.specs.Prelude.{◌≡◌, ◌<◌, [], length, IfOk, OnErr};
ghost use Rattle.group_types.specs.declared.process.ProcessId.TheVariants.{ParityNode};
ghost use Rattle.erasure_code.specs.Spaces.{bytes_at};
ghost use Rattle.group_run.specs.Leaders.{missing_block, rebuilt_bytes};
ghost use Rattle.group_run.specs.Asking.{found_unless};
ghost use Rattle.group_run.specs.Process.{opening_process};
ghost use Rattle.head_service.specs.Beneath.{IsFound};
ghost use Rattle.head_service.specs.Wanting.{IsThere};
ghost use Rattle.page_map.specs.Spaces.{LiesIn};

use block_sessions::Sessions;
use group_calls::Found;
use group_message::{Body, Update};
use group_types::{Partition, Payload, ProcessId, Run, Shape};
use head_service::Beneath;
use parity_space::ParitySpace;
use row_copies::Rows;
use std::alloc::{AllocError, Global};
use std::marker::Model;

mod coming;
mod leader;
mod row;

/// The bytes of a parity process: its space, its copies as a row, and its blocks as a leader.
#[derive(Drop)]
pub struct ParityBytes {
    shape: Shape,
    number: u32,
    space: ParitySpace,
    rows: Rows,
    sessions: Sessions,
}

impl Model for ParityBytes {
    ghost use Rattle.parity_bytes.specs.Bytes.{ArePartsOf, ParityHolding, parity_process_of};

    ghost Value = { ParityHolding };

    ghost view = { λ b. record { shape = b.shape; made = b.space.made; process = parity_process_of b.shape b.number b.space.bytes b.rows.state b.sessions.state } };

    ghost invariant = { λ b. ArePartsOf b.shape b.number b.space b.rows b.sessions };
}

impl ParityBytes {
    /// The bytes of parity process `number` at the start: a space of zeros with no page, no copy, and
    /// no session.
    pub fn new(alloc: Global, shape: Shape, number: u32) -> Result<ParityBytes, AllocError>
        requires { number < shape.m }
        ensures { IfOk result (λ bytes. bytes ≡ record {
          shape = shape;
          made = [];
          process = opening_process shape
              (ParityNode number);
        }) }
    {
        Ok(ParityBytes {
            shape,
            number,
            space: ParitySpace::new(alloc, shape, number)?,
            rows: Rows::new(alloc, shape, number)?,
            sessions: Sessions::new(alloc, shape)?,
        })
    }

    /// The shape of the group.
    pub fn shape(&self) -> Shape
        ensures { result ≡ self.now.shape }
    {
        self.shape
    }

    /// How many pages were made.
    pub fn made(&self) -> u32
        ensures { result ≡ length self.now.made }
    {
        self.space.made()
    }

    /// The bytes of a run of its space.
    pub fn bytes(&self, run: Run) -> Result<Payload, AllocError>
        requires { LiesIn run self.now.shape }
        ensures { IfOk result (λ bytes. bytes ≡ bytes_at run.at run.len self.now.process.space) }
    {
        Payload::from_vec(Vec::from(self.space.range(run)?))
    }

    /// The number of the parity process.
    pub fn number(&self) -> u32
        ensures name { self.now.process.name ≡ ParityNode result }
        ensures below { result < self.now.shape.m }
    {
        self.number
    }
}

impl Beneath for ParityBytes {
    ghost use Rattle.parity_bytes.specs.Bytes.{storage_of_bytes};

    ghost storage = { λ b. storage_of_bytes b };

    fn name(&self) -> ProcessId {
        ProcessId::ParityNode(self.number)
    }

    fn space(&self) -> u32 {
        self.shape.space()
    }

    fn find(&self, partition: Partition, run: Run) -> Result<Found, AllocError> {
        rebuilt(&self.sessions, partition, run)
    }

    fn reserve(&mut self, _: Partition, update: &Update) -> Result<(), AllocError> {
        if let Body::Put { run, .. } = &update.body {
            self.space.reserve(*run)?;
        }
        Ok(())
    }

    fn add(&mut self, partition: Partition, update: &Update) {
        self.space.apply(partition, update);
        self.rows.add(partition, update);
        self.sessions.add(partition, update);
    }
}

// What a leader has of a run of a partition: its bytes, or the lowest block that isn't rebuilt.
fn rebuilt(sessions: &Sessions, partition: Partition, run: Run) -> Result<Found, AllocError>
    requires partition { partition.0 < sessions.now.shape.k }
    requires within { LiesIn run sessions.now.shape }
    ensures found { IfOk result (λ found. found ≡ found_unless
        (missing_block sessions.now.shape partition.0 run sessions.now.state)
        (rebuilt_bytes sessions.now.shape partition.0 run sessions.now.state)) }
    ensures whole { IfOk result (IsFound sessions.now.shape run.len) }
    ensures wanted { OnErr result (IsThere (found_unless (missing_block sessions.now.shape partition.0 run
        sessions.now.state)
        (rebuilt_bytes sessions.now.shape partition.0 run sessions.now.state))) }
{
    if let Some(block) = sessions.missing(partition, run) {
        return Ok(Found::Missing(block));
    }
    Ok(Found::Bytes(sessions.read(partition, run)?))
}

// Tests that no value is kept beside these parts: a further field, or one of another type, does not compile.
fn keeps_no_value_beside_its_parts(bytes: &ParityBytes) {
    let ParityBytes {
        shape,
        number,
        space,
        rows,
        sessions,
    } = bytes;
    let _: &Shape = shape;
    let _: &u32 = number;
    let _: &ParitySpace = space;
    let _: &Rows = rows;
    let _: &Sessions = sessions;
}
