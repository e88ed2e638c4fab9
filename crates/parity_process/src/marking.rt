ghost use Rattle.std.specs.Prelude.{◌≡◌, ◌<◌, ◌≤◌, true, [], ◌∷◌, length, vec_capacity, replicate, IfOk, IfSome, OnErr};
ghost use Rattle.group_types.specs.Lists.{at};
ghost use Rattle.group_types.specs.declared.process.ProcessId.TheVariants.{ParityNode};
ghost use Rattle.group_run.specs.Fitting.{MarkFits};
ghost use Rattle.group_run.specs.Leaders.{mark_comes, row_comes};
ghost use Rattle.group_run.specs.Replica.{empty_replica, up_to};
ghost use Rattle.group_run.specs.Rows.{accepts_mark, parity_number};
ghost use Rattle.row_copies.specs.Laws.{handed_on};
ghost use Rattle.row_copies.specs.Row.{IsWholeCopy};
ghost use Rattle.head_service.specs.Serving.{Serving, serving};
ghost use Rattle.process_service.specs.Steps.{machine_step};
ghost use Rattle.parity_bytes.specs.Bytes.{Stays};
ghost use Rattle.parity_process.specs.Marking.{WaitForOwnRow, copy_taken, row_message};
ghost use Rattle.parity_process.specs.Standing.{BytesAreBeneath};

use group_message::{Message, Session};
use group_types::{Partition, ProcessId, Rank, Shape};
use head_service::{Sent, Settlement};
use parity_bytes::ParityBytes;
use process_service::{Service, Step};
use row_copies::Copy;
use std::alloc::{AllocError, Global};
use vector_stamp::Stamp;

pub mod coming;

/// A mark of a partition, which a leader or a data process sends to a row of a session.
#[derive(Clone, Copy)]
pub struct Mark {
    pub session: Session,
    pub rank: Rank,
    pub block: u32,
    pub partition: Partition,
    pub number: u64,
}

/// A mark comes, which the row drops or takes: it copies the block at the first one, applies the partition up to
/// the mark's number, and lets no more of it into the copy. After want of memory nothing but room has changed.
pub fn receive_mark(
    alloc: Global,
    mark: Mark,
    service: &mut Service,
    bytes: &mut ParityBytes,
) -> Result<Step, AllocError>
    requires fits { accepts_mark (serving service.old bytes.old.process) (parity_number mark.session.leader)
        mark.session.number mark.rank.0 mark.partition.0 ≡ true
        → MarkFits service.old.shape (serving service.old bytes.old.process) mark.session mark.block mark.partition.0
        mark.number }
    requires over { BytesAreBeneath service.old bytes.old }
    requires own { WaitForOwnRow bytes.old.process }
    ensures shape { service.new.shape ≡ service.old.shape }
    ensures over { BytesAreBeneath service.new bytes.new }
    ensures pages { bytes.new.made ≡ bytes.old.made }
    ensures step { IfOk result (λ step. mark_comes service.old.shape (parity_number mark.session.leader)
        mark.session.number mark.rank.0 mark.block
        mark.partition.0 mark.number (serving service.old bytes.old.process) ≡ machine_step (serving service.new bytes.new.process) step) }
    ensures wanted { OnErr result (accepts_mark (serving service.old bytes.old.process)
        (parity_number mark.session.leader) mark.session.number mark.rank.0 mark.partition.0 ≡ true) }
    ensures service_err { OnErr result (service.new ≡ service.old) }
    ensures bytes_err { OnErr result (bytes.new.process ≡ bytes.old.process) }
{
    let leader = number_of(mark.session.leader);
    if !accepts(leader, mark, service, bytes) {
        return Ok(Step::nothing(alloc));
    }
    let letter = Letter::new(alloc, service.shape())?;
    let room = service.room(mark.partition, mark.number)?;
    bytes.begin(leader, mark.session.number, mark.block)?;
    let copy = take(leader, mark, room, service, bytes);
    Ok(Step::sending(alloc, hand_on(copy, letter, service.shape(), bytes)))
}

// Whether the row takes a mark.
fn accepts(leader: u32, mark: Mark, service: &Service, bytes: &ParityBytes) -> bool
    requires leader { leader ≡ parity_number mark.session.leader }
    requires fits { accepts_mark (serving service.now bytes.now.process) leader mark.session.number mark.rank.0
        mark.partition.0 ≡ true
        → (leader < service.now.shape.m) × (mark.partition.0 < service.now.shape.k) }
    requires over { BytesAreBeneath service.now bytes.now }
    ensures value { result ≡ accepts_mark (serving service.now bytes.now.process) leader mark.session.number mark.rank.0
        mark.partition.0 }
{
    let shape = service.shape();
    if shape.m() <= leader || shape.k() <= mark.partition.0 {
        return false;
    }
    mark.rank == service.rank(mark.partition)
        && !service.known().is_dead(ProcessId::ParityNode(leader))
        && bytes.accepts(leader, mark.session.number)
}

// The number of a parity process.
fn number_of(process: ProcessId) -> u32
    ensures { result ≡ parity_number process }
{
    match process {
        ProcessId::DataNode(_) => 0,
        ProcessId::ParityNode(i) => i,
    }
}

/// A partition is applied up to a mark's number, and marked in the copy for the session, which is handed out if
/// that was the last mark. It takes no memory.
pub fn take(
    leader: u32,
    mark: Mark,
    room: Vec<Settlement>,
    service: &mut Service,
    bytes: &mut ParityBytes,
) -> Option<Copy>
    requires partition { mark.partition.0 < service.old.shape.k }
    requires empty { room.items ≡ [] }
    requires fits { length (up_to mark.number (at empty_replica service.old.replicas mark.partition.0))
        ≤ vec_capacity room }
    requires over { BytesAreBeneath service.old bytes.old }
    ensures shape { service.new.shape ≡ service.old.shape }
    ensures over { BytesAreBeneath service.new bytes.new }
    ensures pages { bytes.new.made ≡ bytes.old.made }
    ensures name { bytes.new.process.name ≡ bytes.old.process.name }
    ensures own { WaitForOwnRow bytes.old.process → WaitForOwnRow bytes.new.process }
    ensures whole { IfSome result (IsWholeCopy service.old.shape) }
    ensures leader { IfSome result (λ copy. copy.leader ≡ leader) }
    ensures taken { copy_taken service.old.shape leader mark.session.number mark.partition.0 mark.number
        (serving service.old bytes.old.process)
        ≡ handed_on service.old.shape result (serving service.new bytes.new.process) }
{
    service.apply(mark.partition, mark.number, room, bytes);
    bytes.mark(leader, mark.session.number, mark.partition, mark.number)
}

/// What handing a copy on takes of memory.
#[derive(Drop)]
pub struct Letter {
    pub stamp: Stamp,
    pub sent: Vec<Sent>,
}

impl Letter {
    fn new(alloc: Global, shape: Shape) -> Result<Letter, AllocError>
        ensures stamp { IfOk result (λ letter. letter.stamp ≡ replicate shape.k 0) }
        ensures empty { IfOk result (λ letter. letter.sent.items ≡ []) }
        ensures room { IfOk result (λ letter. 1 ≤ vec_capacity letter.sent) }
    {
        Ok(Letter {
            stamp: Stamp::zero(alloc, shape.k())?,
            sent: Vec::with_capacity(alloc, 1)?,
        })
    }
}

// A copy whose marks are all there goes to its leader, and the process's own to its session. It takes no memory.
fn hand_on(copy: Option<Copy>, letter: Letter, shape: Shape, bytes: &mut ParityBytes) -> Vec<Sent>
    requires shape { shape ≡ bytes.old.shape }
    requires whole { IfSome copy (IsWholeCopy shape) }
    requires stamp { letter.stamp ≡ replicate shape.k 0 }
    requires empty { letter.sent.items ≡ [] }
    requires room { 1 ≤ vec_capacity letter.sent }
    requires own { WaitForOwnRow bytes.old.process }
    ensures stays { Stays bytes.old bytes.new }
    ensures step { (v : Serving) → handed_on shape copy (serving v bytes.old.process)
        ≡ record { process = serving v bytes.new.process; sent = result.items; settled = [] } }
{
    let Some(copy) = copy else {
        return letter.sent;
    };
    if copy.leader() == bytes.number() {
        finish_own(copy, bytes);
        return letter.sent;
    }
    post(copy, letter, shape)
}

/// The process's own copy goes to its session. It takes no memory.
pub fn finish_own(copy: Copy, bytes: &mut ParityBytes)
    requires whole { IsWholeCopy bytes.old.shape copy }
    requires leader { bytes.old.process.name ≡ ParityNode copy.leader }
    requires own { WaitForOwnRow bytes.old.process }
    ensures stays { Stays bytes.old bytes.new }
    ensures process { bytes.new.process
        ≡ row_comes bytes.old.shape copy.number copy.leader copy.bytes bytes.old.process }
{
    let leader = copy.leader();
    let number = copy.number();
    bytes.row(number, leader, copy.into_bytes().bytes());
}

// The message that brings a copy to its leader.
fn post(copy: Copy, letter: Letter, shape: Shape) -> Vec<Sent>
    requires whole { IsWholeCopy shape copy }
    requires stamp { letter.stamp ≡ replicate shape.k 0 }
    requires empty { letter.sent.items ≡ [] }
    requires room { 1 ≤ vec_capacity letter.sent }
    ensures { result.items ≡ row_message shape copy ∷ [] }
{
    let Letter {
        mut stamp,
        mut sent,
    } = letter;
    copy.stamp(shape, &mut stamp);
    let to = ProcessId::ParityNode(copy.leader());
    let session = Session {
        leader: to,
        number: copy.number(),
    };
    let bytes = copy.into_bytes();
    let message = Message::Row {
        session,
        bytes,
        stamp,
    };
    match sent.push(Sent { to, message }) {
        Ok(()) => sent,
        Err(_) => unreachable!(),
    }
}
