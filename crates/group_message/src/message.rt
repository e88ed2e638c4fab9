use crate::lists::{RowList, UpdateList};
use crate::update::Update;
use group_types::{ByteList, Partition, ProcessId, Rank};
use vector_stamp::Stamp;

/// A block session: the parity process that leads it, and its number there, from 1.
#[derive(Clone, Copy, Debug, PartialEq, Eq)]
pub struct Session {
    pub leader: ProcessId,
    pub number: u64,
}

/// A message from one process to another.
#[derive(Debug, Drop)]
pub enum Message {
    /// A head issues an update; what is up to `stable` is settled.
    Update {
        rank: Rank,
        partition: Partition,
        update: Update,
        stable: u64,
    },
    /// A parity process has every update up to this one.
    Ack {
        rank: Rank,
        partition: Partition,
        number: u64,
    },
    /// A head tells how far it has settled.
    Stable {
        rank: Rank,
        partition: Partition,
        number: u64,
    },
    /// A new head tells what it has applied, and what stands in its log above it.
    Adopt {
        rank: Rank,
        partition: Partition,
        base: u64,
        list: UpdateList,
    },
    /// A leader asks a data process for a block.
    ReadBlock {
        session: Session,
        block: u32,
        rows: RowList,
    },
    /// A data process's block, at its settled number.
    Block {
        session: Session,
        bytes: ByteList,
        number: u64,
    },
    /// A row is to apply a partition up to this number, and to take that for the session.
    Mark {
        session: Session,
        rank: Rank,
        block: u32,
        partition: Partition,
        number: u64,
    },
    /// A row's block of code, at the numbers of its marks.
    Row {
        session: Session,
        bytes: ByteList,
        stamp: Stamp,
    },
    /// A leader has closed its sessions up to this number.
    Cease {
        upto: u64,
    },
    /// A process is dead; nothing of it comes behind this.
    Notice {
        dead: ProcessId,
    },
}
