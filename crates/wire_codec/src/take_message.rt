ghost use Rattle.wire_codec.specs.Reading.{Gives, message_at, message_in, update_message_at, ack_at, stable_at, adopt_at, read_block_at, block_at, mark_at, row_at, cease_at, notice_at};

use crate::fault::ReadFault;
use crate::numbers::{take_eight, take_four, take_one};
use crate::take_fields::{take_process, take_rows, take_session, take_stamp, take_updates};
use crate::take_update::{take_long, take_update};
use group_message::Message;
use group_types::{ByteList, Partition, Rank};
use std::alloc::Global;

/// The message that a text is, if it is the whole of it.
#[tactic(auto, unfolding(crate::specs::Reading::message_in))]
pub fn read_message(alloc: Global, text: &[u8]) -> Result<Message, ReadFault>
    ensures { Gives (λ m. m) result (message_in text.now) }
{
    let (message, rest) = take_message(alloc, text)?;
    match rest {
        [] => Ok(message),
        [_, ..] => Err(ReadFault::NoSpelling),
    }
}

#[tactic(auto, unfolding(crate::specs::Reading::message_at))]
fn take_message(alloc: Global, bytes: &[u8]) -> Result<(Message, &[u8]), ReadFault>
    ensures { Gives (λ x. (x.0, x.1.now)) result (message_at bytes.now) }
{
    let (kind, rest) = take_one(bytes)?;
    match kind {
        1 => take_update_message(alloc, rest),
        2 => take_ack(rest),
        3 => take_stable(rest),
        4 => take_adopt(alloc, rest),
        5 => take_read_block(alloc, rest),
        6 => take_block(alloc, rest),
        7 => take_mark(rest),
        8 => take_row(alloc, rest),
        9 => take_cease(rest),
        10 => take_notice(rest),
        _ => Err(ReadFault::NoSpelling),
    }
}

#[tactic(auto, unfolding(crate::specs::Reading::update_message_at))]
fn take_update_message(alloc: Global, bytes: &[u8]) -> Result<(Message, &[u8]), ReadFault>
    ensures { Gives (λ x. (x.0, x.1.now)) result (update_message_at bytes.now) }
{
    let (rank, rest) = take_one(bytes)?;
    let (partition, rest) = take_one(rest)?;
    let (update, rest) = take_update(alloc, rest)?;
    let (stable, rest) = take_eight(rest)?;
    let message = Message::Update {
        rank: Rank(rank),
        partition: Partition(partition),
        update,
        stable,
    };
    Ok((message, rest))
}

#[tactic(auto, unfolding(crate::specs::Reading::ack_at))]
fn take_ack(bytes: &[u8]) -> Result<(Message, &[u8]), ReadFault>
    ensures { Gives (λ x. (x.0, x.1.now)) result (ack_at bytes.now) }
{
    let (rank, rest) = take_one(bytes)?;
    let (partition, rest) = take_one(rest)?;
    let (number, rest) = take_eight(rest)?;
    let message = Message::Ack {
        rank: Rank(rank),
        partition: Partition(partition),
        number,
    };
    Ok((message, rest))
}

#[tactic(auto, unfolding(crate::specs::Reading::stable_at))]
fn take_stable(bytes: &[u8]) -> Result<(Message, &[u8]), ReadFault>
    ensures { Gives (λ x. (x.0, x.1.now)) result (stable_at bytes.now) }
{
    let (rank, rest) = take_one(bytes)?;
    let (partition, rest) = take_one(rest)?;
    let (number, rest) = take_eight(rest)?;
    let message = Message::Stable {
        rank: Rank(rank),
        partition: Partition(partition),
        number,
    };
    Ok((message, rest))
}

#[tactic(auto, unfolding(crate::specs::Reading::adopt_at))]
fn take_adopt(alloc: Global, bytes: &[u8]) -> Result<(Message, &[u8]), ReadFault>
    ensures { Gives (λ x. (x.0, x.1.now)) result (adopt_at bytes.now) }
{
    let (rank, rest) = take_one(bytes)?;
    let (partition, rest) = take_one(rest)?;
    let (base, rest) = take_eight(rest)?;
    let (list, rest) = take_updates(alloc, rest)?;
    let message = Message::Adopt {
        rank: Rank(rank),
        partition: Partition(partition),
        base,
        list,
    };
    Ok((message, rest))
}

#[tactic(auto, unfolding(crate::specs::Reading::read_block_at))]
fn take_read_block(alloc: Global, bytes: &[u8]) -> Result<(Message, &[u8]), ReadFault>
    ensures { Gives (λ x. (x.0, x.1.now)) result (read_block_at bytes.now) }
{
    let (session, rest) = take_session(bytes)?;
    let (block, rest) = take_four(rest)?;
    let (rows, rest) = take_rows(alloc, rest)?;
    let message = Message::ReadBlock {
        session,
        block,
        rows,
    };
    Ok((message, rest))
}

#[tactic(auto, unfolding(crate::specs::Reading::block_at))]
fn take_block(alloc: Global, bytes: &[u8]) -> Result<(Message, &[u8]), ReadFault>
    ensures { Gives (λ x. (x.0, x.1.now)) result (block_at bytes.now) }
{
    let (session, rest) = take_session(bytes)?;
    let (block, rest) = take_long(rest)?;
    let (number, rest) = take_eight(rest)?;
    let message = Message::Block {
        session,
        bytes: ByteList::of(alloc, block)?,
        number,
    };
    Ok((message, rest))
}

#[tactic(auto, unfolding(crate::specs::Reading::mark_at))]
fn take_mark(bytes: &[u8]) -> Result<(Message, &[u8]), ReadFault>
    ensures { Gives (λ x. (x.0, x.1.now)) result (mark_at bytes.now) }
{
    let (session, rest) = take_session(bytes)?;
    let (rank, rest) = take_one(rest)?;
    let (block, rest) = take_four(rest)?;
    let (partition, rest) = take_one(rest)?;
    let (number, rest) = take_eight(rest)?;
    let message = Message::Mark {
        session,
        rank: Rank(rank),
        block,
        partition: Partition(partition),
        number,
    };
    Ok((message, rest))
}

#[tactic(auto, unfolding(crate::specs::Reading::row_at))]
fn take_row(alloc: Global, bytes: &[u8]) -> Result<(Message, &[u8]), ReadFault>
    ensures { Gives (λ x. (x.0, x.1.now)) result (row_at bytes.now) }
{
    let (session, rest) = take_session(bytes)?;
    let (row, rest) = take_long(rest)?;
    let (stamp, rest) = take_stamp(alloc, rest)?;
    let message = Message::Row {
        session,
        bytes: ByteList::of(alloc, row)?,
        stamp,
    };
    Ok((message, rest))
}

#[tactic(auto, unfolding(crate::specs::Reading::cease_at))]
fn take_cease(bytes: &[u8]) -> Result<(Message, &[u8]), ReadFault>
    ensures { Gives (λ x. (x.0, x.1.now)) result (cease_at bytes.now) }
{
    let (upto, rest) = take_eight(bytes)?;
    Ok((Message::Cease { upto }, rest))
}

#[tactic(auto, unfolding(crate::specs::Reading::notice_at))]
fn take_notice(bytes: &[u8]) -> Result<(Message, &[u8]), ReadFault>
    ensures { Gives (λ x. (x.0, x.1.now)) result (notice_at bytes.now) }
{
    let (dead, rest) = take_process(bytes)?;
    Ok((Message::Notice { dead }, rest))
}
