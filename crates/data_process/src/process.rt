ghost use Rattle.std.specs.Prelude.{◌≡◌, ◌<◌, ◌^◌, ℕ, false, [], length, None, true, IfOk, OnErr};
ghost use Rattle.group_types.specs.Names.{IsProcess};
ghost use Rattle.group_types.specs.declared.process.ProcessId.TheVariants.{DataNode};
ghost use Rattle.membership.specs.Members.{knows_dead};
ghost use Rattle.group_message.specs.declared.message.Message.TheVariants as tells;
ghost use Rattle.group_types.specs.Hash.{home_of};
ghost use Rattle.group_types.specs.Lists.{at};
ghost use Rattle.group_run.specs.Applying.{replica_of};
ghost use Rattle.group_run.specs.Process.{opening_process};
ghost use Rattle.group_run.specs.Receiving.{notice_comes, read_comes, receive};
ghost use Rattle.group_run.specs.Replica.{last_of};
ghost use Rattle.process_service.specs.Standing.{is_under};
ghost use Rattle.process_service.specs.Steps.{machine_step};
ghost use Rattle.process_service.specs.Wanting.{AskWants};
ghost use Rattle.data_process.specs.Steps.{ComesToData};

use crate::reading::read_block;
use crate::values::Values;
use group_calls::Answer;
use group_message::{Message, Session};
use group_types::{Key, Partition, Payload, ProcessId, Rank, Run, Shape, home};
use head_service::{Asking, Call, CallStep, Sent};
use membership::Members;
use memc_table::Op;
use partition_replica::Replica;
use process_service::{GroupProcess, Service, Step};
use std::alloc::{AllocError, Global};
use std::marker::Model;

mod coming;

/// A data process: it heads its own partition, whose values stand in its space.
#[derive(Drop)]
pub struct DataProcess {
    alloc: Global,
    service: Service,
    values: Values,
}

impl Model for DataProcess {
    ghost use Rattle.data_process.specs.Standing.{IsReadyFor};
    ghost use Rattle.data_process.specs.Values.{data_process_of};
    ghost use Rattle.process_service.specs.Standing.{Standing, standing};

    ghost Value = { Standing };

    ghost view = { λ p. standing p.service (data_process_of p.values) p.values.space.made };

    ghost invariant = { λ p. IsReadyFor p.service p.values };
}

impl DataProcess {
    /// The data process of this number at the start.
    pub fn new(alloc: Global, shape: Shape, number: u32) -> Result<DataProcess, AllocError>
        requires { number < shape.k }
        ensures { IfOk result (λ process. process
            ≡ record { shape = shape; process = opening_process shape (DataNode number); made = [] }) }
    {
        Ok(DataProcess {
            alloc,
            service: Service::new(alloc, shape, ProcessId::DataNode(number))?,
            values: Values::new(alloc, shape, number)?,
        })
    }

    /// The number up to which its partition is settled.
    pub fn stamp(&self) -> u64
        ensures { (d : ℕ) → self.now.process.name ≡ DataNode d → result ≡ (replica_of self.now.process d).applied }
    {
        self.service.applied(Partition(self.values.number()))
    }

    /// How many pages were made.
    pub fn made(&self) -> u32
        ensures { result ≡ length self.now.made }
    {
        self.values.made()
    }
}

impl GroupProcess for DataProcess {
    ghost standing = { λ p. p };

    ghost has_numbers = { λ key p. last_of (replica_of p.process (home_of key p.shape.k)) < 2 ^ 62 };

    ghost may_want = { λ name op p. AskWants p.shape op p.process };

    ghost comes = { λ from message p. ComesToData p.shape from message p.process };

    ghost pages = { λ message p q. q.made ≡ p.made };

    fn ask(&mut self, call: Call, op: &Op) -> Result<CallStep, AllocError> {
        match self.service.ask(call, op, &mut self.values)? {
            Asking::Done(step) => Ok(step),
            Asking::Need(_) => unreachable!(),
        }
    }

    fn may_ask(&self, key: &Key) -> bool {
        let partition = home(key, self.service.shape().k());
        self.service.last(partition) < 1 << 62
    }

    fn collect(&mut self, caller: u32, call: u64) -> Answer {
        self.service.collect(caller, call)
    }

    fn fate(&self, caller: u32, call: u64, partition: Partition) -> Answer {
        self.service.fate(caller, call, partition)
    }

    fn flush(&self) -> Result<Vec<Sent>, AllocError> {
        self.service.flush()
    }

    fn receive(&mut self, from: ProcessId, message: &Message) -> Result<Step, AllocError> {
        match message {
            Message::Ack {
                rank,
                partition,
                number,
            } => self.acknowledge(from, *rank, *partition, *number),
            Message::ReadBlock {
                session,
                block,
                rows,
            } => self.read(*session, *block, rows.rows()),
            Message::Notice { dead } => self.notice(*dead),
            _ => unreachable!(),
        }
    }

    fn name(&self) -> ProcessId {
        self.service.name()
    }

    fn known(&self) -> Members {
        self.service.known()
    }

    fn waiting(&self) -> usize {
        self.service.waiting()
    }

    fn replica(&self, partition: Partition) -> &Replica {
        &self.service.replicas()[partition.0 as usize]
    }

    fn bytes(&self, run: Run) -> Result<Payload, AllocError> {
        self.values.bytes(run)
    }
}

// What each kind of message does.
impl DataProcess {
    fn acknowledge(
        &mut self,
        from: ProcessId,
        rank: Rank,
        partition: Partition,
        number: u64,
    ) -> Result<Step, AllocError>
        requires from { IsProcess self.old.shape from }
        requires partition { partition.0 < self.old.shape.k }
        ensures shape { self.new.shape ≡ self.old.shape }
        ensures pages { self.new.made ≡ self.old.made }
        ensures step { IfOk result (λ step. receive self.old.shape from
            (tells.Ack rank partition number) self.old.process ≡ machine_step self.new.process step) }
        ensures wanted { OnErr result (is_under rank.0 (at None self.old.process.heads partition.0) ≡ true) }
        ensures err { OnErr result (self.new.process ≡ self.old.process) }
    {
        let settled = match from {
            ProcessId::DataNode(_) => Vec::new(self.alloc),
            ProcessId::ParityNode(i) => {
                self.service
                    .acknowledge(i, rank, partition, number, &mut self.values)?
            }
        };
        Ok(Step {
            sent: Vec::new(self.alloc),
            settled,
        })
    }

    fn read(&self, session: Session, block: u32, rows: &[u32]) -> Result<Step, AllocError>
        requires { block < self.now.shape.blocks }
        ensures { IfOk result (λ step. read_comes self.now.shape session block rows.now self.now.process
            self.now.process.name ≡ machine_step self.now.process step) }
    {
        Ok(Step {
            sent: read_block(self.alloc, &self.values, session, block, rows, self.stamp())?,
            settled: Vec::new(self.alloc),
        })
    }

    fn notice(&mut self, dead: ProcessId) -> Result<Step, AllocError>
        requires process { IsProcess self.old.shape dead }
        requires news { knows_dead self.old.process.known dead ≡ false }
        ensures shape { self.new.shape ≡ self.old.shape }
        ensures pages { self.new.made ≡ self.old.made }
        ensures step { IfOk result (λ step. notice_comes self.old.shape dead self.old.process
            ≡ machine_step self.new.process step) }
        ensures err { OnErr result (self.new.process ≡ self.old.process) }
    {
        let mut sent = Vec::new(self.alloc);
        let notice = self.service.prepare(dead, &mut sent)?;
        let settled = self.service.notice(dead, notice, &mut self.values);
        Ok(Step { sent, settled })
    }
}
