ghost use Rattle.std.specs.Prelude.{◌≡◌, IfOk, List};
ghost use Rattle.group_message.specs.declared.update.Update.{Update};
ghost use Rattle.head_service.specs.Telling.{message_of};

use group_message::{Message, Update, UpdateList};
use group_types::{Partition, Rank};
use std::alloc::{AllocError, Global};

/// What a head tells the other parity processes.
#[derive(Debug, Drop)]
pub enum News {
    /// It issued an update; what is up to `stable` is settled.
    Issued { update: Update, stable: u64 },
    /// It has settled up to this number.
    Settled { number: u64 },
    /// It took the partition over with this applied number and log.
    TakenOver { base: u64, list: UpdateList },
}

impl News {
    /// The message that tells it.
    pub fn message(
        &self,
        alloc: Global,
        rank: Rank,
        partition: Partition,
    ) -> Result<Message, AllocError>
        ensures { IfOk result (λ message. message ≡ message_of rank partition self.now) }
    {
        Ok(match self {
            News::Issued { update, stable } => Message::Update {
                rank,
                partition,
                update: copy_of(update)?,
                stable: *stable,
            },
            News::Settled { number } => Message::Stable {
                rank,
                partition,
                number: *number,
            },
            News::TakenOver { base, list } => Message::Adopt {
                rank,
                partition,
                base: *base,
                list: copy_all(alloc, list.updates())?,
            },
        })
    }
}

/// A copy of these updates, which share their keys and differences.
pub fn copy_all(alloc: Global, updates: &[Update]) -> Result<UpdateList, AllocError>
    ensures { IfOk result (λ list. list ≡ updates.now) }
{
    let mut list = Vec::new(alloc);
    'updates: for update in updates {
        list.push(copy_of(update)?)?;
    }
    Ok(UpdateList::from(list))
}

/// A copy of an update, which shares its key and its difference.
pub fn copy_of(update: &Update) -> Result<Update, AllocError>
    ensures { IfOk result (λ copy. copy ≡ update.now) }
{
    update.clone()
}
