ghost use Rattle.std.specs.Prelude.{◌≡◌, ◌++◌, length, take, OnOk};
ghost use Rattle.group_message.specs.declared.message.Message.TheVariants as tells;
ghost use Rattle.head_service.specs.Peers.{to_all};

use group_message::Message;
use group_types::ProcessId;
use head_service::{Peers, Sent};
use std::alloc::AllocError;

/// Tells the other parity processes that the leader's sessions up to a number are closed.
///
/// `AllocError`: what was in the list still stands at its front.
pub fn ceases(peers: &Peers, last: u64, sent: &mut Vec<Sent>) -> Result<(), AllocError>
    ensures told { OnOk result (sent.new.items ≡ sent.old.items ++ to_all peers.now (tells.Cease last)) }
    ensures before { take (length sent.old.items) sent.new.items ≡ sent.old.items }
{
    'parities: for parity in 0..peers.m {
        if !peers.has(parity) {
            continue;
        }
        sent.push(Sent {
            to: ProcessId::ParityNode(parity),
            message: Message::Cease { upto: last },
        })?;
    }
    Ok(())
}
