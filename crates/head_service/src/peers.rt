ghost use Rattle.std.specs.Prelude.{◌≡◌, ◌≤◌, ◌&&◌, ◌++◌, length, not, OnOk};
ghost use Rattle.group_types.specs.Names.{same_process};
ghost use Rattle.group_types.specs.declared.process.ProcessId.TheVariants.{ParityNode};
ghost use Rattle.membership.specs.Members.{knows_dead};
ghost use Rattle.head_service.specs.Peers.{settles, to_all};
ghost use Rattle.head_service.specs.Fates.{adopted};
ghost use Rattle.head_service.specs.Telling.{message_of};

use crate::head::Head;
use crate::news::News;
use crate::step::Sent;
use group_types::{Partition, ProcessId, Rank};
use membership::Members;
use std::alloc::AllocError;

/// Whom a head tells of its updates, and for whom it waits: the parity processes of the group, other than
/// itself, that it doesn't know to be dead.
#[derive(Clone, Copy, Debug)]
pub struct Peers {
    pub m: u32,
    pub name: ProcessId,
    pub known: Members,
}

impl Peers {
    /// Whether a parity process is among them.
    pub fn has(&self, parity: u32) -> bool
        ensures { result ≡ (not (same_process self.now.name (ParityNode parity)) && not
            (knows_dead self.now.known (ParityNode parity))) }
    {
        let process = ProcessId::ParityNode(parity);
        self.name != process && !self.known.is_dead(process)
    }

    /// The least number that they acknowledged, `last` where there is none of them.
    pub fn least_acked(&self, head: &Head, last: u64) -> u64
        requires { length head.now.acks ≡ self.now.m }
        ensures value { result ≡ settles self.now head.now last }
        ensures within { result ≤ last }
    {
        let mut least = last;
        let mut parity = self.m;
        'parities: while 0 < parity {
            parity -= 1;
            if !self.has(parity) {
                continue;
            }
            least = head.acked(parity).unwrap_or(0).min(least);
        }
        least
    }

    /// Whether each of them has acknowledged the head, or it is the first.
    pub fn have_adopted(&self, head: &Head) -> bool
        requires { length head.now.acks ≡ self.now.m }
        ensures { result ≡ adopted self.now head.now }
    {
        if head.rank() == Rank(0) {
            return true;
        }
        let mut all = true;
        let mut parity = self.m;
        'parities: while 0 < parity {
            parity -= 1;
            if self.has(parity) {
                all = head.acked(parity).is_some() && all;
            }
        }
        all
    }

    /// Adds a message of the news to each of them.
    pub fn tell(
        &self,
        rank: Rank,
        partition: Partition,
        news: &News,
        sent: &mut Vec<Sent>,
    ) -> Result<(), AllocError>
        ensures { OnOk result (sent.new.items
            ≡ sent.old.items ++ to_all self.now (message_of rank partition news.now)) }
    {
        let alloc = *sent.allocator();
        'parities: for parity in 0..self.m {
            if !self.has(parity) {
                continue;
            }
            sent.push(Sent {
                to: ProcessId::ParityNode(parity),
                message: news.message(alloc, rank, partition)?,
            })?;
        }
        Ok(())
    }
}
