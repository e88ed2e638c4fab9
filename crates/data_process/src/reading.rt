ghost use Rattle.std.specs.Prelude.{◌≡◌, ◌<◌, ◌++◌, IfOk, OnOk};
ghost use Rattle.group_run.specs.Receiving.{data_marks};
ghost use Rattle.data_process.specs.Reading.{block_sent};

use crate::values::Values;
use group_message::{Message, Session};
use group_types::{Partition, ProcessId, Rank};
use head_service::Sent;
use std::alloc::{AllocError, Global};

pub mod coming;

/// What is sent where a leader asks for a block: the block at the settled number to the leader, and then a
/// mark of that number to each row of the session.
pub fn read_block(
    alloc: Global,
    values: &Values,
    session: Session,
    block: u32,
    rows: &[u32],
    number: u64,
) -> Result<Vec<Sent>, AllocError>
    requires { block < values.now.space.shape.blocks }
    ensures { IfOk result (λ sent. sent.items ≡ block_sent values.now session block rows.now number) }
{
    let partition = Partition(values.number());
    let bytes = values.block(block)?;
    let block_message = Message::Block {
        session,
        bytes,
        number,
    };
    let mut sent = Vec::with_capacity(alloc, rows.len() + 1)?;
    sent.push(Sent {
        to: session.leader,
        message: block_message,
    })?;
    mark(session, block, partition, number, rows, &mut sent)?;
    Ok(sent)
}

// A mark to each of the rows, in order.
fn mark(
    session: Session,
    block: u32,
    partition: Partition,
    number: u64,
    rows: &[u32],
    sent: &mut Vec<Sent>,
) -> Result<(), AllocError>
    ensures { OnOk result (sent.new.items ≡ sent.old.items ++ data_marks session block partition.0 number rows.now) }
{
    'rows: for row in rows {
        sent.push(Sent {
            to: ProcessId::ParityNode(*row),
            message: Message::Mark {
                session,
                rank: Rank(0),
                block,
                partition,
                number,
            },
        })?;
    }
    Ok(())
}
