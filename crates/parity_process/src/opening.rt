ghost use Rattle.std.specs.Prelude.{◌≡◌, ◌<◌, ◌^◌, true, is_some, IfOk, OnErr};
ghost use Rattle.std.specs.List.{range_with_len};
ghost use Rattle.group_types.specs.Lists.{at};
ghost use Rattle.group_types.specs.declared.process.ProcessId.TheVariants.{ParityNode};
ghost use Rattle.group_run.specs.Applying.{for_each, quiet};
ghost use Rattle.group_run.specs.Asking.{oldest_inherited, retry_block};
ghost use Rattle.group_run.specs.Leaders.{lost_of, own_mark, rows_of, session_starts, start_session};
ghost use Rattle.group_run.specs.Process.{Process};
ghost use Rattle.group_run.specs.Rows.{accepts_mark, copy_in};
ghost use Rattle.head_service.specs.Serving.{serving};
ghost use Rattle.process_service.specs.Steps.{called, machine_step};
ghost use Rattle.parity_process.specs.Marking.{WaitForOwnRow};
ghost use Rattle.parity_process.specs.Opening.{AreMarkable, HeadsOne, Opens};
ghost use Rattle.parity_process.specs.Standing.{BytesAreBeneath, BytesAreReadyFor};

use crate::marking::{Mark, finish_own, take};
use group_calls::{Answer, Cause};
use group_message::Session;
use group_types::{Partition, ProcessId};
use head_service::{CallStep, Sent};
use leader_role::Start;
use leader_role::rows::{lost, rows};
use parity_bytes::ParityBytes;
use process_service::{Service, Step};
use std::alloc::{AllocError, Global};

/// A block has to be rebuilt first: once nothing inherited is unfinished, a session is opened for it, unless there
/// is one. After want of memory nothing but room has changed.
pub fn retry(
    alloc: Global,
    block: u32,
    service: &mut Service,
    bytes: &mut ParityBytes,
) -> Result<CallStep, AllocError>
    requires ready { BytesAreReadyFor service.old bytes.old }
    requires heads { HeadsOne service.old }
    requires block { block < service.old.shape.blocks }
    requires sessions { bytes.old.process.as_leader.last_session < 2 ^ 62 }
    ensures shape { service.new.shape ≡ service.old.shape }
    ensures over { BytesAreBeneath service.new bytes.new }
    ensures pages { bytes.new.made ≡ bytes.old.made }
    ensures step { IfOk result (λ step. retry_block service.old.shape block
        (oldest_inherited (serving service.old bytes.old.process) (range_with_len 0 service.old.shape.k))
        (serving service.old bytes.old.process)
        ≡ called (serving service.new bytes.new.process) step) }
    ensures wanted { OnErr result (Opens service.old.shape block (serving service.old bytes.old.process)) }
    ensures service_err { OnErr result (service.new ≡ service.old) }
    ensures bytes_err { OnErr result (bytes.new.process ≡ bytes.old.process) }
{
    if let Some(inherited) = service.oldest_inherited() {
        let cause = Cause::Pending {
            partition: inherited.partition,
            number: inherited.number,
        };
        return Ok(CallStep::only(alloc, Answer::Retry(cause)));
    }
    if bytes.is_open_for(block) {
        return Ok(CallStep::only(alloc, Answer::Retry(Cause::Block { block })));
    }
    let Step { sent, settled } = start(alloc, block, service, bytes)?;
    Ok(CallStep {
        answer: Answer::Retry(Cause::Block { block }),
        sent,
        settled,
    })
}

// A leader starts a session for a block, and marks its own row.
fn start(
    alloc: Global,
    block: u32,
    service: &mut Service,
    bytes: &mut ParityBytes,
) -> Result<Step, AllocError>
    requires ready { BytesAreReadyFor service.old bytes.old }
    requires heads { HeadsOne service.old }
    requires block { block < service.old.shape.blocks }
    requires sessions { bytes.old.process.as_leader.last_session < 2 ^ 62 }
    ensures shape { service.new.shape ≡ service.old.shape }
    ensures over { BytesAreBeneath service.new bytes.new }
    ensures pages { bytes.new.made ≡ bytes.old.made }
    ensures step { IfOk result (λ step. start_session service.old.shape block (serving service.old bytes.old.process)
        ≡ machine_step (serving service.new bytes.new.process) step) }
    ensures service_err { OnErr result (service.new ≡ service.old) }
    ensures bytes_err { OnErr result (bytes.new.process ≡ bytes.old.process) }
{
    let plan = Plan::new(alloc, service)?;
    let leader = bytes.number();
    let number = bytes.last() + 1;
    let sent = questions(alloc, leader, number, block, &plan.rows, service)?;
    let marked = Vec::from_slice(alloc, &plan.lost)?;
    bytes.start(block, plan.lost, plan.rows)?;
    mark_own(alloc, leader, number, block, &marked, service, bytes);
    Ok(Step::sending(alloc, sent))
}

// The lost partitions, and the rows of a session that rebuilds their blocks.
#[derive(Drop)]
struct Plan {
    lost: Vec<u32>,
    rows: Vec<u32>,
}

impl Plan {
    fn new(alloc: Global, service: &Service) -> Result<Plan, AllocError>
        ensures lost { (b : Process) → IfOk result (λ plan. plan.lost.items
            ≡ lost_of service.now.shape (serving service.now b)) }
        ensures rows { (b : Process) → IfOk result (λ plan. plan.rows.items
            ≡ rows_of service.now.shape (serving service.now b)) }
    {
        let known = service.known();
        let lost = lost(alloc, service.shape(), &known)?;
        let rows = rows(alloc, service.shape(), &known)?;
        Ok(Plan { lost, rows })
    }
}

// What a leader sends to start a session.
fn questions(
    alloc: Global,
    leader: u32,
    number: u64,
    block: u32,
    rows: &[u32],
    service: &Service,
) -> Result<Vec<Sent>, AllocError>
    requires rows { (b : Process) → rows.now ≡ rows_of service.now.shape (serving service.now b) }
    ensures { (b : Process) → IfOk result (λ sent. sent.items
        ≡ session_starts service.now.shape leader number block (serving service.now b)) }
{
    let start = Start {
        leader,
        number,
        block,
    };
    let known = service.known();
    start.questions(
        alloc,
        service.shape(),
        &known,
        rows,
        service.ranks(),
        service.replicas(),
    )
}

// A leader marks lost partitions in its own row, unless it ceased the session. It takes no memory.
fn mark_own(
    alloc: Global,
    leader: u32,
    number: u64,
    block: u32,
    lost: &[u32],
    service: &mut Service,
    bytes: &mut ParityBytes,
)
    requires leader { leader < service.old.shape.m }
    requires markable { at 0 bytes.old.process.as_row.ceased leader < number
        → AreMarkable service.old.shape leader number block lost.now (serving service.old bytes.old.process) }
    requires over { BytesAreBeneath service.old bytes.old }
    ensures shape { service.new.shape ≡ service.old.shape }
    ensures over { BytesAreBeneath service.new bytes.new }
    ensures pages { bytes.new.made ≡ bytes.old.made }
    ensures step { for_each lost.now (own_mark service.old.shape leader number block)
        (serving service.old bytes.old.process)
        ≡ quiet (serving service.new bytes.new.process) }
{
    if !bytes.accepts(leader, number) {
        return;
    }
    'lost: for &d in lost {
        mark_at(alloc, leader, number, block, Partition(d), service, bytes);
    }
}

fn mark_at(
    alloc: Global,
    leader: u32,
    number: u64,
    block: u32,
    partition: Partition,
    service: &mut Service,
    bytes: &mut ParityBytes,
)
    requires partition { partition.0 < service.old.shape.k }
    requires over { BytesAreBeneath service.old bytes.old }
    requires leader { bytes.old.process.name ≡ ParityNode leader }
    requires own { WaitForOwnRow bytes.old.process }
    requires takes { accepts_mark (serving service.old bytes.old.process) leader number
        (at 0 service.old.ranks partition.0) partition.0 ≡ true }
    requires copied { is_some (copy_in bytes.old.process.as_row.copies leader number) ≡ true }
    ensures shape { service.new.shape ≡ service.old.shape }
    ensures over { BytesAreBeneath service.new bytes.new }
    ensures pages { bytes.new.made ≡ bytes.old.made }
    ensures step { own_mark service.old.shape leader number block partition.0 (serving service.old bytes.old.process)
        ≡ quiet (serving service.new bytes.new.process) }
{
    let session = Session {
        leader: ProcessId::ParityNode(leader),
        number,
    };
    let mark = Mark {
        session,
        rank: service.rank(partition),
        block,
        partition,
        number: service.applied(partition),
    };
    match take(leader, mark, Vec::new(alloc), service, bytes) {
        None => {}
        Some(copy) => finish_own(copy, bytes),
    }
}
