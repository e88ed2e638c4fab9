ghost use Rattle.std.specs.Prelude.{◌≡◌, ◌++◌, length, map, IfOk, OnOk};
ghost use Rattle.group_message.specs.declared.message.Message.TheVariants as tells;
ghost use Rattle.group_run.specs.Leaders.{session_of, session_starts};
ghost use Rattle.group_run.specs.Process.{Process};
ghost use Rattle.leader_role.specs.Starting.{HasParts, marks, marks_of_lost, reads};

use group_message::{Message, RowList, Session};
use group_types::{Partition, ProcessId, Rank, Shape};
use head_service::Sent;
use membership::Members;
use partition_replica::Replica;
use std::alloc::{AllocError, Global};

/// A session that a leader starts: its own number, the session's, and the block that is to be rebuilt.
#[derive(Clone, Copy, Debug)]
pub struct Start {
    pub leader: u32,
    pub number: u64,
    pub block: u32,
}

impl Start {
    /// What the leader sends: it asks the data processes that are left for their blocks, and marks the lost
    /// partitions in the other rows.
    pub fn questions(
        &self,
        alloc: Global,
        shape: Shape,
        known: &Members,
        rows: &[u32],
        ranks: &[Rank],
        replicas: &[Replica],
    ) -> Result<Vec<Sent>, AllocError>
        requires ranks { length ranks.now ≡ shape.k }
        requires replicas { length replicas.now ≡ shape.k }
        ensures { IfOk result (λ sent. (p : Process)
            → HasParts shape known.now rows.now ranks.now (map (λ r. r.replica) replicas.now) p
            → sent.items ≡ session_starts shape self.now.leader self.now.number self.now.block p) }
    {
        let mut sent = Vec::new(alloc);
        self.ask(shape, known, rows, &mut sent)?;
        self.mark_lost(shape, known, rows, ranks, replicas, &mut sent)?;
        Ok(sent)
    }

    // Asks the data processes that are left.
    fn ask(
        &self,
        shape: Shape,
        known: &Members,
        rows: &[u32],
        sent: &mut Vec<Sent>,
    ) -> Result<(), AllocError>
        ensures { OnOk result (sent.new.items ≡ sent.old.items ++ reads self.now shape known.now rows.now) }
    {
        let alloc = *sent.allocator();
        'partitions: for d in 0..shape.k() {
            let to = ProcessId::DataNode(d);
            if known.is_dead(to) {
                continue;
            }
            let message = self.question(alloc, rows)?;
            sent.push(Sent { to, message })?;
        }
        Ok(())
    }

    fn question(&self, alloc: Global, rows: &[u32]) -> Result<Message, AllocError>
        ensures { IfOk result (λ message. message
            ≡ tells.ReadBlock (session_of self.now.leader self.now.number) self.now.block rows.now) }
    {
        let rows = Vec::from_slice(alloc, rows)?;
        Ok(Message::ReadBlock {
            session: self.session(),
            block: self.block,
            rows: RowList::from(rows),
        })
    }

    fn session(&self) -> Session
        ensures { result ≡ session_of self.now.leader self.now.number }
    {
        Session {
            leader: ProcessId::ParityNode(self.leader),
            number: self.number,
        }
    }

    // Marks each lost partition at its settled number.
    fn mark_lost(
        &self,
        shape: Shape,
        known: &Members,
        rows: &[u32],
        ranks: &[Rank],
        replicas: &[Replica],
        sent: &mut Vec<Sent>,
    ) -> Result<(), AllocError>
        requires ranks { length ranks.now ≡ shape.k }
        requires replicas { length replicas.now ≡ shape.k }
        ensures { OnOk result (sent.new.items ≡ sent.old.items
            ++ marks_of_lost self.now shape known.now rows.now (map (λ r. r.0) ranks.now) (map (λ r. r.replica) replicas.now)) }
    {
        'partitions: for d in 0..shape.k() {
            if !known.is_dead(ProcessId::DataNode(d)) {
                continue;
            }
            let number = replicas[d as usize].applied();
            self.mark(ranks[d as usize], Partition(d), number, rows, sent)?;
        }
        Ok(())
    }

    // Marks a partition in each row but the leader's own.
    fn mark(
        &self,
        rank: Rank,
        partition: Partition,
        number: u64,
        rows: &[u32],
        sent: &mut Vec<Sent>,
    ) -> Result<(), AllocError>
        ensures { OnOk result (sent.new.items ≡ sent.old.items ++ marks self.now rank partition number rows.now) }
    {
        'rows: for &row in rows {
            if row == self.leader {
                continue;
            }
            let message = Message::Mark {
                session: self.session(),
                rank,
                block: self.block,
                partition,
                number,
            };
            sent.push(Sent {
                to: ProcessId::ParityNode(row),
                message,
            })?;
        }
        Ok(())
    }
}
