ghost use Rattle.std.specs.Prelude.{◌≡◌, ◌<◌, ◌≤◌, ◌↔◌, IsTrue};
ghost use Rattle.group_types.specs.Lists.{at};
ghost use Rattle.group_types.specs.declared.process.ProcessId as named;
ghost use Rattle.group_message.specs.declared.message.Message.TheVariants as tells;
ghost use Rattle.group_run.specs.Fitting.{MarkFits};
ghost use Rattle.group_run.specs.Replica.{empty_replica};
ghost use Rattle.group_run.specs.Rows.{accepts_mark, parity_number};
ghost use Rattle.head_service.specs.Serving.{serving};
ghost use Rattle.parity_process.specs.Coming.{CanBeApplied, FitsParity};
ghost use Rattle.parity_process.specs.Standing.{BytesAreBeneath};

use super::{Mark, number_of};
use group_message::Session;
use group_types::{Partition, ProcessId};
use parity_bytes::ParityBytes;
use process_service::Service;

/// Whether a mark can come: it fits, unless the row drops it, and is of a session that the process started if it is
/// of one of its own. It takes no memory.
pub fn may_mark(mark: Mark, service: &Service, bytes: &ParityBytes) -> bool
    requires { BytesAreBeneath service.now bytes.now }
    ensures { (from : named.ProcessId) → IsTrue result ↔ FitsParity service.now.shape from
        (tells.Mark mark.session mark.rank mark.block mark.partition mark.number)
        (serving service.now bytes.now.process) }
{
    is_started(mark.session, bytes) && (!takes(mark, service, bytes) || fits(mark, service, bytes))
}

// Whether a session is one that the process started, if it is one of its own.
fn is_started(session: Session, bytes: &ParityBytes) -> bool
    ensures { IsTrue result ↔ (parity_number session.leader ≡ parity_number bytes.now.process.name
        → session.number ≤ bytes.now.process.as_leader.last_session) }
{
    number_of(session.leader) != bytes.number() || session.number <= bytes.last()
}

/// Whether the row takes a mark, be it of the group or not. It takes no memory.
pub(crate) fn takes(mark: Mark, service: &Service, bytes: &ParityBytes) -> bool
    ensures { result ≡ accepts_mark (serving service.now bytes.now.process) (parity_number mark.session.leader)
        mark.session.number mark.rank.0 mark.partition.0 }
{
    let leader = number_of(mark.session.leader);
    mark.rank.0 == rank_in(mark.partition, service)
        && !service.known().is_dead(ProcessId::ParityNode(leader))
        && bytes.is_beyond(leader, mark.session.number)
}

// The rank under which the process follows a partition, which is 0 where there is none.
fn rank_in(partition: Partition, service: &Service) -> u32
    ensures { result ≡ at 0 service.now.ranks partition.0 }
{
    if service.ranks().len() <= partition.0 as usize {
        return 0;
    }
    service.rank(partition).0
}

// Whether a mark that the row takes fits.
fn fits(mark: Mark, service: &Service, bytes: &ParityBytes) -> bool
    requires { BytesAreBeneath service.now bytes.now }
    ensures { IsTrue result ↔ MarkFits service.now.shape (serving service.now bytes.now.process) mark.session mark.block
        mark.partition.0 mark.number }
{
    let shape = service.shape();
    service.is_parity(mark.session.leader)
        && mark.partition.0 < shape.k()
        && mark.block < shape.blocks()
        && is_held(mark.partition, mark.number, service)
        && bytes.awaits_mark(
            number_of(mark.session.leader),
            mark.session.number,
            mark.block,
            mark.partition,
        )
}

// Whether a partition can be applied up to a number, or is.
fn is_held(partition: Partition, number: u64, service: &Service) -> bool
    requires { partition.0 < service.now.shape.k }
    ensures { IsTrue result ↔ CanBeApplied (at empty_replica service.now.replicas partition.0) number }
{
    service.applied(partition) <= number && number <= service.last(partition)
}
