ghost use Rattle.std.specs.Prelude.{◌≡◌, ◌++◌, false, IfOk, OnErr, OnOk};
ghost use Rattle.group_types.specs.Names.{IsProcess};
ghost use Rattle.membership.specs.Members.{knows_dead};
ghost use Rattle.group_run.specs.Fitting.{NoticeFits};
ghost use Rattle.group_run.specs.Receiving.{death_known, notice_comes};
ghost use Rattle.group_run.specs.Rows.{leader_forgotten};
ghost use Rattle.head_service.specs.Serving.{serving};
ghost use Rattle.process_service.specs.Steps.{machine_step};
ghost use Rattle.parity_bytes.specs.Bytes.{Stays};
ghost use Rattle.parity_process.specs.Closing.{ceases_if, closed_if};
ghost use Rattle.parity_process.specs.Standing.{BytesAreBeneath};

use group_types::ProcessId;
use head_service::Sent;
use leader_role::cease::ceases;
use parity_bytes::ParityBytes;
use process_service::{Service, Step};
use std::alloc::{AllocError, Global};

/// The notice of a death: the process closes its sessions and tells the rows, judges its acknowledgements anew, and
/// takes partitions over. After want of memory nothing but room has changed.
pub fn notice(
    alloc: Global,
    dead: ProcessId,
    service: &mut Service,
    bytes: &mut ParityBytes,
) -> Result<Step, AllocError>
    requires fits { NoticeFits service.old.shape (serving service.old bytes.old.process) dead }
    requires over { BytesAreBeneath service.old bytes.old }
    ensures shape { service.new.shape ≡ service.old.shape }
    ensures over { BytesAreBeneath service.new bytes.new }
    ensures pages { bytes.new.made ≡ bytes.old.made }
    ensures step { IfOk result (λ step. notice_comes service.old.shape dead (serving service.old bytes.old.process)
        ≡ machine_step (serving service.new bytes.new.process) step) }
    ensures service_err { OnErr result (service.new ≡ service.old) }
    ensures bytes_err { OnErr result (bytes.new.process ≡ bytes.old.process) }
{
    let mut sent = Vec::new(alloc);
    tell(dead, service, bytes, &mut sent)?;
    let notice = service.prepare(dead, &mut sent)?;
    close(dead, bytes);
    let settled = service.notice(dead, notice, bytes);
    Ok(Step { sent, settled })
}

// The rows of open sessions are told that these are closed, but for one that is dead.
fn tell(
    dead: ProcessId,
    service: &Service,
    bytes: &ParityBytes,
    sent: &mut Vec<Sent>,
) -> Result<(), AllocError>
    requires process { IsProcess service.now.shape dead }
    requires news { knows_dead service.now.known dead ≡ false }
    requires over { BytesAreBeneath service.now bytes.now }
    ensures { OnOk result (sent.new.items ≡ sent.old.items
        ++ ceases_if service.now.shape bytes.now.process.as_leader.sessions (death_known dead (serving service.now bytes.now.process))) }
{
    if bytes.is_idle() {
        return Ok(());
    }
    let mut peers = service.peers();
    let _ = peers.known.fail(dead);
    ceases(&peers, bytes.last(), sent)
}

// What the process keeps of its bytes once it knows of the death. It takes no memory.
fn close(dead: ProcessId, bytes: &mut ParityBytes)
    ensures stays { Stays bytes.old bytes.new }
    ensures closed { bytes.new.process ≡ closed_if bytes.old.process.as_leader.sessions
        (leader_forgotten dead bytes.old.process) }
{
    bytes.forget(dead);
    if bytes.is_idle() {
        return;
    }
    let own = bytes.number();
    let last = bytes.last();
    bytes.close_all();
    bytes.cease(own, last);
}
