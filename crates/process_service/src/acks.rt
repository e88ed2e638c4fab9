// What a process acknowledges to a head that it follows.
ghost use Rattle.std.specs.Prelude.{◌≡◌, ◌+◌, [], ◌∷◌, suc, length, IfOk};
ghost use Rattle.group_message.specs.declared.message.Message.TheVariants as tells;
ghost use Rattle.group_run.specs.Fitting.{NumberedFrom};

use group_message::{Message, UpdateList};
use group_types::{Partition, ProcessId, Rank};
use head_service::Sent;
use std::alloc::{AllocError, Global};

/// A message that acknowledges a number to a head.
pub fn ack_to(
    alloc: Global,
    head: ProcessId,
    rank: Rank,
    partition: Partition,
    number: u64,
) -> Result<Vec<Sent>, AllocError>
    ensures { IfOk result (λ sent. sent.items ≡ record { to = head; message = tells.Ack rank partition number } ∷ []) }
{
    let mut sent = Vec::with_capacity(alloc, 1)?;
    sent.push(Sent {
        to: head,
        message: Message::Ack {
            rank,
            partition,
            number,
        },
    })?;
    Ok(sent)
}

/// The last number of a head's log above its base.
pub fn reach(base: u64, list: &UpdateList) -> u64
    requires { NumberedFrom (suc base) list.now }
    ensures { result ≡ base + length list.now }
{
    match list.updates().last() {
        None => base,
        Some(update) => update.number,
    }
}
