ghost use Rattle.std.specs.Prelude.{◌≡◌, ◌<◌, length};
ghost use Rattle.group_run.specs.Asking.{fate_from};
ghost use Rattle.group_run.specs.Replica.{callers};
ghost use Rattle.head_service.specs.Fates.{adopted, fate};

use crate::head::Head;
use crate::held::reply;
use crate::peers::Peers;
use group_calls::Answer;
use group_message::Kept;
use partition_replica::Replica;

/// What the head of a partition tells of a call. It takes no memory.
pub fn fate(head: &Head, peers: &Peers, replica: &Replica, caller: u32, call: u64) -> Answer
    requires acks { length head.now.acks ≡ peers.now.m }
    requires caller { caller < callers }
    ensures { result ≡ fate peers.now head.now replica.now.replica caller call }
{
    if replica.waits(caller, call) {
        return Answer::NotYet;
    }
    told(peers.have_adopted(head), call, replica.kept(caller))
}

// What the last applied update of the caller tells of a call that isn't in the log.
fn told(adopted: bool, call: u64, kept: Option<Kept>) -> Answer
    ensures { result ≡ fate_from adopted call kept }
{
    match kept {
        Some(kept) if kept.call == call => Answer::Reply(reply(kept.outcome)),
        Some(kept) if call < kept.call => Answer::Stale(kept.call),
        _ if adopted => Answer::Gone,
        _ => Answer::NotYet,
    }
}
