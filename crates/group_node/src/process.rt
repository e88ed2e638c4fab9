ghost use Rattle.std.specs.Prelude.{◌≡◌, ◌⊎◌, [], IfOk};
ghost use Rattle.group_types.specs.Names.{IsProcess};
ghost use Rattle.group_run.specs.Process.{opening_process};
ghost use Rattle.group_run.specs.Shown.{process_stamp};
ghost use Rattle.process_service.specs.Paging.{MakesPagesFor};
ghost use Rattle.process_service.specs.Wanting.{AskWants};
ghost use Rattle.parity_process.specs.Opening.{CallOpens};
ghost use Rattle.group_node.specs.Asking.{HasNumbers};
ghost use Rattle.group_node.specs.Delivering.{Comes};

use crate::reading::numbers_of;
use data_process::DataProcess;
use group_calls::Answer;
use group_message::Message;
use group_types::{Key, Partition, Payload, ProcessId, Run, Shape};
use head_service::{Call, CallStep, Sent};
use membership::Members;
use memc_table::Op;
use parity_process::ParityProcess;
use partition_replica::Replica;
use process_service::{GroupProcess, Step};
use std::alloc::{AllocError, Global};
use std::marker::Model;

mod coming;

/// What a process is in its group. It stands on the heap, so that a node is small where threads hand it on by value.
#[derive(Drop)]
pub enum Role {
    Data(Box<DataProcess>),
    Parity(Box<ParityProcess>),
}

/// A process of either role.
#[derive(Drop)]
pub struct Process {
    role: Role,
}

impl Model for Process {
    ghost use Rattle.process_service.specs.Standing.{Standing};
    ghost use Rattle.group_node.specs.Roles.{IsNamed, standing_in};

    ghost Value = { Standing };

    ghost view = { λ p. standing_in p.role };

    ghost invariant = { λ p. IsNamed p.role };
}

impl Process {
    /// The process of this name at the start.
    pub fn new(alloc: Global, shape: Shape, name: ProcessId) -> Result<Process, AllocError>
        requires { IsProcess shape name }
        ensures { IfOk result (λ process. process
            ≡ record { shape = shape; process = opening_process shape name; made = [] }) }
    {
        let role = match name {
            ProcessId::DataNode(d) => Role::Data(Box::new(
                alloc,
                DataProcess::new(alloc, shape, d)?,
            )?),
            ProcessId::ParityNode(i) => Role::Parity(Box::new(
                alloc,
                ParityProcess::new(alloc, shape, i)?,
            )?),
        };
        Ok(Process { role })
    }

    /// The numbers up to which it has settled or applied, where its group has `k` partitions.
    pub fn stamp(&self, alloc: Global, k: u32) -> Result<Vec<u64>, AllocError>
        requires { k ≡ self.now.shape.k }
        ensures { IfOk result (λ stamp. stamp.items
            ≡ process_stamp self.now.shape self.now.process.name self.now.process) }
    {
        match &self.role {
            Role::Data(process) => Ok(vec![in alloc; process.stamp()]?),
            Role::Parity(process) => numbers_of(alloc, k, &process.stamp()?),
        }
    }
}

impl GroupProcess for Process {
    ghost standing = { λ p. p };

    ghost has_numbers = { λ key p. HasNumbers p.shape key p.process };

    ghost may_want = { λ name op p. AskWants p.shape op p.process ⊎ CallOpens p.shape name op p.process };

    ghost comes = { λ from message p. Comes p.shape from message p.process };

    ghost pages = { MakesPagesFor };

    fn ask(&mut self, call: Call, op: &Op) -> Result<CallStep, AllocError> {
        match &mut self.role {
            Role::Data(process) => process.ask(call, op),
            Role::Parity(process) => process.ask(call, op),
        }
    }

    fn may_ask(&self, key: &Key) -> bool {
        match &self.role {
            Role::Data(process) => process.may_ask(key),
            Role::Parity(process) => process.may_ask(key),
        }
    }

    fn collect(&mut self, caller: u32, call: u64) -> Answer {
        match &mut self.role {
            Role::Data(process) => process.collect(caller, call),
            Role::Parity(process) => process.collect(caller, call),
        }
    }

    fn fate(&self, caller: u32, call: u64, partition: Partition) -> Answer {
        match &self.role {
            Role::Data(process) => process.fate(caller, call, partition),
            Role::Parity(process) => process.fate(caller, call, partition),
        }
    }

    fn flush(&self) -> Result<Vec<Sent>, AllocError> {
        match &self.role {
            Role::Data(process) => process.flush(),
            Role::Parity(process) => process.flush(),
        }
    }

    fn receive(&mut self, from: ProcessId, message: &Message) -> Result<Step, AllocError> {
        match &mut self.role {
            Role::Data(process) => process.receive(from, message),
            Role::Parity(process) => process.receive(from, message),
        }
    }

    fn name(&self) -> ProcessId {
        match &self.role {
            Role::Data(process) => process.name(),
            Role::Parity(process) => process.name(),
        }
    }

    fn known(&self) -> Members {
        match &self.role {
            Role::Data(process) => process.known(),
            Role::Parity(process) => process.known(),
        }
    }

    fn waiting(&self) -> usize {
        match &self.role {
            Role::Data(process) => process.waiting(),
            Role::Parity(process) => process.waiting(),
        }
    }

    fn replica(&self, partition: Partition) -> &Replica {
        match &self.role {
            Role::Data(process) => process.replica(partition),
            Role::Parity(process) => process.replica(partition),
        }
    }

    fn bytes(&self, run: Run) -> Result<Payload, AllocError> {
        match &self.role {
            Role::Data(process) => process.bytes(run),
            Role::Parity(process) => process.bytes(run),
        }
    }
}
