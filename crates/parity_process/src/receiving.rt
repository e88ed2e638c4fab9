ghost use Rattle.std.specs.Prelude.{◌≡◌, ◌<◌, ℕ, true, List, None, IfOk, OnErr};
ghost use Rattle.group_types.specs.Lists.{at};
ghost use Rattle.group_types.specs.Names.{IsProcess};
ghost use Rattle.group_message.specs.declared.message.Message.TheVariants as tells;
ghost use Rattle.group_run.specs.Applying.{quiet};
ghost use Rattle.group_run.specs.Fitting.{BlockFits, Fits, RowFits};
ghost use Rattle.group_run.specs.Receiving as machine;
ghost use Rattle.head_service.specs.Paging.{MakesNoneOf};
ghost use Rattle.head_service.specs.Serving.{Serving, serving};
ghost use Rattle.process_service.specs.Current.{is_current};
ghost use Rattle.process_service.specs.Paging.{MessageMisses};
ghost use Rattle.process_service.specs.Standing.{is_under};
ghost use Rattle.process_service.specs.Steps.{machine_step};
ghost use Rattle.parity_bytes.specs.Bytes.{Stays};
ghost use Rattle.parity_process.specs.Standing.{BytesAreBeneath, BytesAreReadyFor};

use crate::closing::notice;
use crate::marking::{Mark, receive_mark};
use group_message::{Message, Session};
use group_types::{ByteList, Partition, ProcessId, Rank};
use parity_bytes::ParityBytes;
use process_service::{Service, Step};
use std::alloc::{AllocError, Global};

/// A message comes from another process. After want of memory nothing but room has changed.
pub fn receive(
    alloc: Global,
    from: ProcessId,
    message: &Message,
    service: &mut Service,
    bytes: &mut ParityBytes,
) -> Result<Step, AllocError>
    requires fits { Fits service.old.shape from message.now (serving service.old bytes.old.process) }
    requires ready { BytesAreReadyFor service.old bytes.old }
    ensures shape { service.new.shape ≡ service.old.shape }
    ensures over { BytesAreBeneath service.new bytes.new }
    ensures pages { MakesNoneOf (MessageMisses service.old.shape.block message.now) bytes.old.made bytes.new.made }
    ensures step { IfOk result (λ step. machine.receive service.old.shape from message.now
        (serving service.old bytes.old.process)
        ≡ machine_step (serving service.new bytes.new.process) step) }
    ensures wanted { OnErr result (is_current (serving service.old bytes.old.process) message.now ≡ true) }
    ensures service_err { OnErr result (service.new ≡ service.old) }
    ensures bytes_err { OnErr result (bytes.new.process ≡ bytes.old.process) }
{
    match message {
        Message::Update {
            rank,
            partition,
            update,
            stable,
        } => service.follow(from, *rank, *partition, update, *stable, bytes),
        Message::Ack {
            rank,
            partition,
            number,
        } => acknowledge(alloc, from, *rank, *partition, *number, service, bytes),
        Message::Stable {
            rank,
            partition,
            number,
        } => service.settle(*rank, *partition, *number, bytes),
        Message::Adopt {
            rank,
            partition,
            base,
            list,
        } => service.adopt(from, *rank, *partition, *base, list, bytes),
        Message::ReadBlock { .. } => Ok(Step::nothing(alloc)),
        Message::Block {
            session,
            bytes: block,
            ..
        } => {
            gather_block(from, *session, block, bytes);
            Ok(Step::nothing(alloc))
        }
        Message::Mark {
            session,
            rank,
            block,
            partition,
            number,
        } => {
            let mark = Mark {
                session: *session,
                rank: *rank,
                block: *block,
                partition: *partition,
                number: *number,
            };
            receive_mark(alloc, mark, service, bytes)
        }
        Message::Row {
            session,
            bytes: block,
            ..
        } => {
            gather_row(from, *session, block, bytes);
            Ok(Step::nothing(alloc))
        }
        Message::Cease { upto } => {
            cease(from, *upto, bytes);
            Ok(Step::nothing(alloc))
        }
        Message::Notice { dead } => notice(alloc, *dead, service, bytes),
    }
}

fn acknowledge(
    alloc: Global,
    from: ProcessId,
    rank: Rank,
    partition: Partition,
    number: u64,
    service: &mut Service,
    bytes: &mut ParityBytes,
) -> Result<Step, AllocError>
    requires from { IsProcess service.old.shape from }
    requires partition { partition.0 < service.old.shape.k }
    requires over { BytesAreBeneath service.old bytes.old }
    ensures shape { service.new.shape ≡ service.old.shape }
    ensures over { BytesAreBeneath service.new bytes.new }
    ensures pages { bytes.new.made ≡ bytes.old.made }
    ensures step { IfOk result (λ step. machine.receive service.old.shape from (tells.Ack rank partition number)
        (serving service.old bytes.old.process)
        ≡ machine_step (serving service.new bytes.new.process) step) }
    ensures wanted { OnErr result (is_under rank.0 (at None service.old.heads partition.0) ≡ true) }
    ensures service_err { OnErr result (service.new ≡ service.old) }
    ensures bytes_err { OnErr result (bytes.new.process ≡ bytes.old.process) }
{
    match from {
        ProcessId::DataNode(_) => Ok(Step::nothing(alloc)),
        ProcessId::ParityNode(i) => Ok(Step {
            sent: Vec::new(alloc),
            settled: service.acknowledge(i, rank, partition, number, bytes)?,
        }),
    }
}

// A data process's block comes in for a session.
fn gather_block(from: ProcessId, session: Session, block: &ByteList, bytes: &mut ParityBytes)
    requires fits { BlockFits bytes.old.shape from bytes.old.process session.number block.now }
    ensures stays { Stays bytes.old bytes.new }
    ensures process { (v : Serving) (n : ℕ)
        → machine.receive bytes.old.shape from (tells.Block session block.now n) (serving v bytes.old.process)
        ≡ quiet (serving v bytes.new.process) }
{
    match from {
        ProcessId::DataNode(d) => bytes.block(session.number, d, block),
        ProcessId::ParityNode(_) => {}
    }
}

// A row's block of code comes in for a session.
fn gather_row(from: ProcessId, session: Session, block: &ByteList, bytes: &mut ParityBytes)
    requires fits { RowFits bytes.old.shape from bytes.old.process session.number block.now }
    ensures stays { Stays bytes.old bytes.new }
    ensures process { (v : Serving) (stamp : List ℕ)
        → machine.receive bytes.old.shape from (tells.Row session block.now stamp) (serving v bytes.old.process)
        ≡ quiet (serving v bytes.new.process) }
{
    match from {
        ProcessId::DataNode(_) => {}
        ProcessId::ParityNode(i) => bytes.row(session.number, i, block.bytes()),
    }
}

// A leader has closed its sessions up to a number.
fn cease(from: ProcessId, upto: u64, bytes: &mut ParityBytes)
    requires from { IsProcess bytes.old.shape from }
    ensures stays { Stays bytes.old bytes.new }
    ensures process { (v : Serving) → machine.receive bytes.old.shape from (tells.Cease upto)
        (serving v bytes.old.process) ≡ quiet (serving v bytes.new.process) }
{
    match from {
        ProcessId::DataNode(_) => {}
        ProcessId::ParityNode(i) => bytes.cease(i, upto),
    }
}
