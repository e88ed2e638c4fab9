ghost use Rattle.std.specs.Prelude.{◌≡◌, ◌++◌, false, [], IfOk, OnOk, length, vec_capacity, ◌-◌, ◌^◌, min};
ghost use Rattle.std.specs.List.{range_with_len};
ghost use Rattle.group_types.specs.Names.{IsProcess};
ghost use Rattle.membership.specs.Members.{knows_dead};
ghost use Rattle.head_service.specs.Serving.{serving};
ghost use Rattle.process_service.specs.Noticing.{IsPrepared, adoptions, bereaved, waiting};
ghost use Rattle.process_service.specs.Standing.{IsBeneath, StaysOver};
ghost use Rattle.process_service.specs.Steps.{after_mourning};

use crate::service::Service;
use group_types::{Partition, ProcessId};
use head_service::{Beneath, Head, Sent, Settlement};
use membership::Members;
use partition_replica::Replica;
use std::alloc::AllocError;

/// All that a process needs for the notice of a death: who is known dead then, the heads that it becomes, and
/// room for what it settles.
#[derive(Drop)]
pub struct Notice {
    pub known: Members,
    pub heads: Vec<Option<Head>>,
    pub settled: Vec<Settlement>,
}

impl Service {
    /// Makes all that the notice of a death needs, and adds what is sent then.
    pub fn prepare(&self, dead: ProcessId, sent: &mut Vec<Sent>) -> Result<Notice, AllocError>
        requires process { IsProcess self.now.shape dead }
        requires news { knows_dead self.now.known dead ≡ false }
        ensures prepared { IfOk result (λ notice. IsPrepared (bereaved dead self.now) notice.known notice.heads.items
            (vec_capacity notice.settled)) }
        ensures settled { IfOk result (λ notice. notice.settled.items ≡ []) }
        ensures sent { OnOk result (sent.new.items ≡ sent.old.items
            ++ adoptions (bereaved dead self.now) (range_with_len 0 self.now.shape.k)) }
    {
        let mut known = self.known;
        let _ = known.fail(dead);
        let mut notice = Notice {
            known,
            heads: Vec::with_capacity(self.alloc, self.shape.k() as usize)?,
            settled: Vec::with_capacity(self.alloc, self.waiting())?,
        };
        'partitions: for d in 0..self.shape.k() {
            let due = self.is_due(known, Partition(d));
            let head = self.successor_if(due, Partition(d))?;
            notice.heads.push(head)?;
            self.adoption_if(due, known, Partition(d), sent)?;
        }
        Ok(notice)
    }

    /// The notice of a death, of which what is beneath has the news: acknowledgements are judged anew, and
    /// partitions taken over. It takes no memory.
    pub fn notice<B: Beneath>(
        &mut self,
        dead: ProcessId,
        notice: Notice,
        below: &mut B,
    ) -> Vec<Settlement>
        requires prepared { IsPrepared (bereaved dead self.old) notice.known notice.heads.items
            (vec_capacity notice.settled) }
        requires settled { notice.settled.items ≡ [] }
        requires beneath { IsBeneath self.old (B.storage below.old) }
        ensures stays { StaysOver self.old self.new (B.storage below.old) (B.storage below.new) }
        ensures step { after_mourning self.old.shape (serving (bereaved dead self.old) (B.storage below.old).process)
            ≡ record {
              process = serving self.new (B.storage below.new).process;
              sent = adoptions (bereaved dead self.old) (range_with_len 0 self.old.shape.k);
              settled = result.items;
            } }
    {
        let Notice {
            known,
            mut heads,
            mut settled,
        } = notice;
        self.known = known;
        self.judge_all(below, &mut settled);
        self.take_over_all(&mut heads, below, &mut settled);
        settled
    }
}

impl Service {
    /// How many updates wait in all logs, or the most that a list is asked to have room for.
    pub fn waiting(&self) -> usize
        ensures { result ≡ min (waiting self.now.replicas) (2 ^ 64 - 1) }
    {
        let mut all = 0usize;
        let mut d = self.replicas.len();
        'partitions: while 0 < d {
            d -= 1;
            all = all.saturating_add(long(&self.replicas[d]));
        }
        all
    }
}

fn long(replica: &Replica) -> usize
    ensures { result ≡ length replica.now.replica.log }
{
    (replica.last() - replica.applied()) as usize
}
