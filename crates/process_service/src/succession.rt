ghost use Rattle.std.specs.Prelude.{◌≡◌, ◌<◌, ◌++◌, suc, None, IfOk, OnOk};
ghost use Rattle.std.specs.List.{list_all, range_with_len};
ghost use Rattle.group_types.specs.Lists.{at};
ghost use Rattle.group_types.specs.declared.process.ProcessId.TheVariants.{ParityNode};
ghost use Rattle.membership.specs.Members.{knows_dead};
ghost use Rattle.group_run.specs.Replica.{empty_replica};
ghost use Rattle.group_run.specs.Rows.{parity_number};
ghost use Rattle.process_service.specs.Noticing.{adoption_if, successor_if, is_due};

use crate::service::Service;
use group_types::{Partition, ProcessId, Rank};
use head_service::take_over::{adoption, successor};
use head_service::{Head, Peers, Sent};
use membership::Members;
use std::alloc::AllocError;

// Who takes a partition over, and what is told of it.
impl Service {
    // Whether the process takes a partition over, where these are known dead.
    pub(crate) fn is_due(&self, known: Members, partition: Partition) -> bool
        requires partition { partition.0 < self.now.shape.k }
        requires known { known.shape ≡ self.now.shape }
        ensures { result ≡ is_due known self.now.name partition.0 (at None self.now.heads partition.0) }
    {
        let ProcessId::ParityNode(i) = self.name else {
            return false;
        };
        if self.heads[partition.0 as usize].is_some() {
            return false;
        }
        known.is_dead(ProcessId::DataNode(partition.0)) && are_dead(known, i)
    }

    // The head that the process is then.
    pub(crate) fn successor_if(
        &self,
        due: bool,
        partition: Partition,
    ) -> Result<Option<Head>, AllocError>
        requires { partition.0 < self.now.shape.k }
        ensures { IfOk result (λ head. head ≡ successor_if due self.now.shape self.now.name
            (at empty_replica self.now.replicas partition.0)) }
    {
        if !due {
            return Ok(None);
        }
        let replica = &self.replicas[partition.0 as usize];
        let head = successor(self.alloc, self.shape, self.next_rank(), replica)?;
        Ok(Some(head))
    }

    // Adds what it tells the others then.
    pub(crate) fn adoption_if(
        &self,
        due: bool,
        known: Members,
        partition: Partition,
        sent: &mut Vec<Sent>,
    ) -> Result<(), AllocError>
        requires { partition.0 < self.now.shape.k }
        ensures { OnOk result (sent.new.items ≡ sent.old.items
            ++ adoption_if due self.now.shape known self.now.name partition.0 (at empty_replica self.now.replicas partition.0)) }
    {
        if !due {
            return Ok(());
        }
        let peers = Peers {
            m: self.shape.m(),
            name: self.name,
            known,
        };
        let replica = &self.replicas[partition.0 as usize];
        adoption(partition, self.next_rank(), &peers, replica, sent)
    }

    // The rank under which it heads what it takes over.
    fn next_rank(&self) -> Rank
        ensures { result.0 ≡ suc (parity_number self.now.name) }
    {
        let m = self.shape.m();
        match self.name {
            ProcessId::ParityNode(i) if i < m => Rank(i + 1),
            _ => Rank(1),
        }
    }
}

// Whether the parity processes below a number are all known dead.
fn are_dead(known: Members, number: u32) -> bool
    ensures { result ≡ list_all (λ j. knows_dead known (ParityNode j)) (range_with_len 0 number) }
{
    let mut all = true;
    let mut j = number;
    'lower: while 0 < j {
        j -= 1;
        all = known.is_dead(ProcessId::ParityNode(j)) && all;
    }
    all
}
