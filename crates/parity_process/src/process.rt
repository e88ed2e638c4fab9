ghost use Rattle.std.specs.Prelude.{◌≡◌, ◌⊎◌, ◌<◌, ◌^◌, [], length, map, IfOk};
ghost use Rattle.std.specs.List.{range_with_len};
ghost use Rattle.group_types.specs.declared.process.ProcessId.TheVariants.{ParityNode};
ghost use Rattle.group_types.specs.Hash.{home_of};
ghost use Rattle.group_run.specs.Applying.{replica_of};
ghost use Rattle.group_run.specs.Fitting.{Fits};
ghost use Rattle.group_run.specs.Process.{opening_process};
ghost use Rattle.group_run.specs.Replica.{last_of};
ghost use Rattle.process_service.specs.Paging.{MakesPagesFor};
ghost use Rattle.process_service.specs.Wanting.{AskWants};
ghost use Rattle.parity_process.specs.Opening.{CallOpens};
ghost use Rattle.leader_role.specs.Sound.{IsOfGroup};

use crate::opening::retry;
use crate::receiving::receive;
use group_calls::Answer;
use group_message::Message;
use group_types::{Key, Partition, Payload, ProcessId, Run, Shape, home};
use head_service::{Asking, Call, CallStep, Sent};
use membership::Members;
use memc_table::Op;
use parity_bytes::ParityBytes;
use partition_replica::Replica;
use process_service::{GroupProcess, Service, Step};
use std::alloc::{AllocError, Global};
use std::marker::Model;
use vector_stamp::Stamp;

mod coming;

/// A parity process: it has a replica of each partition, and heads those whose other heads it knows to be dead.
/// Its bytes are the code of all spaces, and blocks that it rebuilt.
#[derive(Drop)]
pub struct ParityProcess {
    alloc: Global,
    service: Service,
    bytes: ParityBytes,
}

impl Model for ParityProcess {
    ghost use Rattle.parity_process.specs.Standing.{BytesAreReadyFor};
    ghost use Rattle.process_service.specs.Standing.{Standing, standing};

    ghost Value = { Standing };

    ghost view = { λ p. standing p.service p.bytes.process p.bytes.made };

    ghost invariant = { λ p. BytesAreReadyFor p.service p.bytes };
}

impl ParityProcess {
    /// The parity process of this number at the start.
    pub fn new(alloc: Global, shape: Shape, number: u32) -> Result<ParityProcess, AllocError>
        requires { number < shape.m }
        ensures { IfOk result (λ process. process
            ≡ record { shape = shape; process = opening_process shape (ParityNode number); made = [] }) }
    {
        Ok(ParityProcess {
            alloc,
            service: Service::new(alloc, shape, ProcessId::ParityNode(number))?,
            bytes: ParityBytes::new(alloc, shape, number)?,
        })
    }

    /// The number of the last block session that it opened.
    pub fn last_session(&self) -> u64
        ensures { result ≡ self.now.process.as_leader.last_session }
    {
        self.bytes.last()
    }

    /// The number up to which each partition is applied.
    pub fn stamp(&self) -> Result<Stamp, AllocError>
        ensures { IfOk result (λ stamp. stamp ≡ map (λ d. (replica_of self.now.process d).applied)
            (range_with_len 0 self.now.shape.k)) }
    {
        let k = self.service.shape().k();
        let mut stamp = Stamp::zero(self.alloc, k)?;
        'partitions: for d in 0..k {
            stamp.raise(d, self.service.applied(Partition(d)));
        }
        Ok(stamp)
    }

    /// How many pages were made.
    pub fn made(&self) -> u32
        ensures { result ≡ length self.now.made }
    {
        self.bytes.made()
    }
}

impl GroupProcess for ParityProcess {
    ghost standing = { λ p. p };

    ghost has_numbers = { λ key p. (last_of (replica_of p.process (home_of key p.shape.k)) < 2 ^ 62)
        × (p.process.as_leader.last_session < 2 ^ 62) };

    ghost may_want = { λ name op p. AskWants p.shape op p.process ⊎ CallOpens p.shape name op p.process };

    // It fits, and comes as in a group that is not down.
    ghost comes = { λ from message p. Fits p.shape from message p.process × IsOfGroup p.shape message p.process };

    ghost pages = { MakesPagesFor };

    fn ask(&mut self, call: Call, op: &Op) -> Result<CallStep, AllocError> {
        match self.service.ask(call, op, &mut self.bytes)? {
            Asking::Done(step) => Ok(step),
            Asking::Need(block) => retry(self.alloc, block, &mut self.service, &mut self.bytes),
        }
    }

    fn may_ask(&self, key: &Key) -> bool {
        let partition = home(key, self.service.shape().k());
        self.service.last(partition) < 1 << 62 && self.last_session() < 1 << 62
    }

    fn collect(&mut self, caller: u32, call: u64) -> Answer {
        self.service.collect(caller, call)
    }

    fn fate(&self, caller: u32, call: u64, partition: Partition) -> Answer {
        self.service.fate(caller, call, partition)
    }

    fn flush(&self) -> Result<Vec<Sent>, AllocError> {
        self.service.flush()
    }

    fn receive(&mut self, from: ProcessId, message: &Message) -> Result<Step, AllocError> {
        receive(
            self.alloc,
            from,
            message,
            &mut self.service,
            &mut self.bytes,
        )
    }

    fn name(&self) -> ProcessId {
        self.service.name()
    }

    fn known(&self) -> Members {
        self.service.known()
    }

    fn waiting(&self) -> usize {
        self.service.waiting()
    }

    fn replica(&self, partition: Partition) -> &Replica {
        &self.service.replicas()[partition.0 as usize]
    }

    fn bytes(&self, run: Run) -> Result<Payload, AllocError> {
        self.bytes.bytes(run)
    }
}

// Tests that no value is kept beside these parts: a further field, or one of another type, does not compile.
fn keeps_no_value_beside_its_parts(process: &ParityProcess) {
    let ParityProcess {
        alloc,
        service,
        bytes,
    } = process;
    let _: &Global = alloc;
    let _: &Service = service;
    let _: &ParityBytes = bytes;
}
