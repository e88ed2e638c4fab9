ghost use Rattle.std.specs.Prelude.{◌≡◌, ◌+◌, ◌-◌, ◌<◌, ◌≤◌, ◌^◌, ◌↔◌, ℕ, List, true, IfOk, IsTrue, OnErr, min};
ghost use Rattle.std.specs.List.{range_with_len};
ghost use Rattle.group_types.specs.Dimensions.{space_of};
ghost use Rattle.group_types.specs.declared.process.ProcessId.{ProcessId};
ghost use Rattle.memc_table.specs.Act.{key_of};
ghost use Rattle.memc_table.specs.Asked.{Asked};
ghost use Rattle.erasure_code.specs.Spaces.{bytes_at};
ghost use Rattle.group_message.specs.declared.message.Message.{Message};
ghost use Rattle.group_calls.specs.Turns.{CallName};
ghost use Rattle.group_run.specs.Applying.{head_at, replica_of, sending};
ghost use Rattle.group_run.specs.Asking.{ask_process, collect_from, fate_of, only};
ghost use Rattle.group_run.specs.Receiving.{receive};
ghost use Rattle.group_run.specs.Replica.{callers};
ghost use Rattle.group_run.specs.World.{flush_process};
ghost use Rattle.head_service.specs.Acting.{name_of_call};
ghost use Rattle.head_service.specs.Paging.{MakesNoneOf};
ghost use Rattle.process_service.specs.Current.{is_current};
ghost use Rattle.process_service.specs.Noticing.{waiting};
ghost use Rattle.process_service.specs.Paging.{CallMisses};
ghost use Rattle.process_service.specs.Standing.{Standing};
ghost use Rattle.process_service.specs.Steps.{called, machine_step};

use crate::step::Step;
use group_calls::Answer;
use group_message::Message;
use group_types::{Key, Partition, Payload, ProcessId, Run};
use head_service::{Call, CallStep, Sent};
use membership::Members;
use memc_table::Op;
use partition_replica::Replica;
use std::alloc::AllocError;

/// A process of a group, of whatever kind: each call is the machine's step.
pub trait GroupProcess {
    /// The process as contracts see it.
    ghost standing: { Self → Standing };

    // Numbers are left for a call on this key.
    ghost has_numbers: { List ℕ → Standing → Type 0 };

    // Memory may be wanted for a call.
    ghost may_want: { CallName → Asked → Standing → Type 0 };

    // A message may come from a process.
    ghost comes: { ProcessId → Message → Standing → Type 0 };

    // Which pages a message leaves, after those that stood before.
    ghost pages: { Message → Standing → Standing → Type 0 };

    /// A call is asked. After want of memory nothing but room has changed.
    fn ask(&mut self, call: Call, op: &Op) -> Result<CallStep, AllocError>
        requires caller { call.caller < callers }
        requires numbers { has_numbers (key_of op.now.act) (standing self.old) }
        ensures shape { (standing self.new).shape ≡ (standing self.old).shape }
        ensures name { (standing self.new).process.name ≡ (standing self.old).process.name }
        ensures pages { MakesNoneOf (CallMisses (standing self.old).shape op.now (standing self.old).process)
            (standing self.old).made (standing self.new).made }
        ensures step { IfOk result (λ step.
            ask_process (standing self.old).shape (name_of_call call) op.now (standing self.old).process
            ≡ called (standing self.new).process step) }
        ensures wanted { OnErr result (may_want (name_of_call call) op.now (standing self.old)) }
        ensures err { OnErr result ((standing self.new).process ≡ (standing self.old).process) };

    /// Whether a call on a key can be asked: numbers are left.
    fn may_ask(&self, key: &Key) -> bool
        ensures { IsTrue result ↔ has_numbers key.now (standing self.now) };

    /// A held call is answered once its update is settled, and forgotten then. It takes no memory.
    fn collect(&mut self, caller: u32, call: u64) -> Answer
        ensures shape { (standing self.new).shape ≡ (standing self.old).shape }
        ensures name { (standing self.new).process.name ≡ (standing self.old).process.name }
        ensures pages { (standing self.new).made ≡ (standing self.old).made }
        ensures answer { collect_from caller call (standing self.old).process
            (range_with_len 0 (standing self.old).shape.k) ≡ only result (standing self.new).process };

    /// What became of a call in a partition. It takes no memory.
    fn fate(&self, caller: u32, call: u64, partition: Partition) -> Answer
        requires caller { caller < callers }
        requires partition { partition.0 < (standing self.now).shape.k }
        ensures { result ≡ fate_of (standing self.now).shape caller call partition.0 (standing self.now).process
            (head_at (standing self.now).process partition.0) };

    /// The messages that tell how far the process has settled, which change nothing here.
    fn flush(&self) -> Result<Vec<Sent>, AllocError>
        ensures { IfOk result (λ sent. (flush_process (standing self.now).shape (standing self.now).process).step
            ≡ sending sent.items (standing self.now).process) };

    /// A message comes from another process. After want of memory nothing but room has changed.
    fn receive(&mut self, from: ProcessId, message: &Message) -> Result<Step, AllocError>
        requires { comes from message.now (standing self.old) }
        ensures shape { (standing self.new).shape ≡ (standing self.old).shape }
        ensures name { (standing self.new).process.name ≡ (standing self.old).process.name }
        ensures pages { pages message.now (standing self.old) (standing self.new) }
        ensures step { IfOk result (λ step.
            receive (standing self.old).shape from message.now (standing self.old).process
            ≡ machine_step (standing self.new).process step) }
        ensures wanted { OnErr result (is_current (standing self.old).process message.now ≡ true) }
        ensures err { OnErr result ((standing self.new).process ≡ (standing self.old).process) };

    /// Which process it is.
    fn name(&self) -> ProcessId
        ensures { result ≡ (standing self.now).process.name };

    /// Who is known dead.
    fn known(&self) -> Members
        ensures { result ≡ (standing self.now).process.known };

    /// How many updates wait in its logs.
    fn waiting(&self) -> usize
        ensures { result ≡ min (waiting (standing self.now).process.replicas) (2 ^ 64 - 1) };

    /// Its replica of a partition.
    fn replica(&self, partition: Partition) -> &Replica
        requires { partition.0 < (standing self.now).shape.k }
        ensures { result.now.replica ≡ replica_of (standing self.now).process partition.0 };

    /// The bytes of a run of its space.
    fn bytes(&self, run: Run) -> Result<Payload, AllocError>
        requires { run.at + run.len ≤ space_of (standing self.now).shape }
        ensures { IfOk result (λ bytes. bytes ≡ bytes_at run.at run.len (standing self.now).process.space) };
}
