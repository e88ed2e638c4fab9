ghost use Rattle.std.specs.Prelude.{◌≡◌, []};

use group_calls::Answer;
use group_message::{Message, Update};
use group_types::{Partition, ProcessId};
use std::alloc::Global;
use std::marker::Model;

/// A message, and who is to get it.
#[derive(Debug, Drop)]
pub struct Sent {
    pub to: ProcessId,
    pub message: Message,
}

impl Model for Sent {
    ghost use Rattle.group_run.specs.Applying as machine;

    ghost Value = { machine.Sent };

    ghost view = { λ s. record { to = s.to; message = s.message } };
}

/// An update that a head settled in its partition.
#[derive(Debug, Drop)]
pub struct Settlement {
    pub partition: Partition,
    pub update: Update,
}

impl Model for Settlement {
    ghost use Rattle.group_run.specs.Applying as machine;

    ghost Value = { machine.Settlement };

    ghost view = { λ s. record { partition = s.partition.0; update = s.update } };
}

/// What a call makes at a process: its answer, what is sent, and what is settled, in order.
#[derive(Debug, Drop)]
pub struct CallStep {
    pub answer: Answer,
    pub sent: Vec<Sent>,
    pub settled: Vec<Settlement>,
}

impl CallStep {
    /// An answer that changes nothing.
    pub fn only(alloc: Global, answer: Answer) -> CallStep
        ensures answer { result.answer ≡ answer }
        ensures sent { result.sent.items ≡ [] }
        ensures settled { result.settled.items ≡ [] }
    {
        CallStep {
            answer,
            sent: Vec::new(alloc),
            settled: Vec::new(alloc),
        }
    }
}
