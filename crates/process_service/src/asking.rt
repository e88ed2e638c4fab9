ghost use Rattle.std.specs.Prelude.{◌<◌, ◌^◌, IfOk, OnErr};
ghost use Rattle.group_types.specs.Hash.{home_of};
ghost use Rattle.group_types.specs.Lists.{at};
ghost use Rattle.memc_table.specs.Act.{key_of};
ghost use Rattle.group_run.specs.Replica.{callers, empty_replica, last_of};
ghost use Rattle.head_service.specs.Acting.{NeedsOf, name_of_call};
ghost use Rattle.head_service.specs.Serving.{serving};
ghost use Rattle.process_service.specs.Paging.{CallMisses};
ghost use Rattle.process_service.specs.Standing.{GrowsOver, IsAsItWas, IsBeneath};
ghost use Rattle.process_service.specs.Steps.{IsCallAsked};
ghost use Rattle.process_service.specs.Wanting.{AskWants};

use crate::service::Service;
use group_calls::Answer;
use group_types::home;
use head_service::ask::ask;
use head_service::{Asking, Beneath, Call, CallStep};
use memc_table::Op;
use std::alloc::AllocError;

impl Service {
    /// A call is asked. After want of memory nothing but room has changed.
    pub fn ask<B: Beneath>(
        &mut self,
        call: Call,
        op: &Op,
        below: &mut B,
    ) -> Result<Asking, AllocError>
        requires caller { call.caller < callers }
        requires numbers { last_of (at empty_replica self.old.replicas (home_of (key_of op.now.act) self.old.shape.k))
            < 2 ^ 62 }
        requires beneath { IsBeneath self.old (B.storage below.old) }
        ensures grows { GrowsOver (CallMisses self.old.shape op.now (serving self.old (B.storage below.old).process))
            self.old self.new
            (B.storage below.old) (B.storage below.new) }
        ensures asked { IfOk result (λ asked. IsCallAsked self.old.shape (name_of_call call) op.now
            (serving self.old (B.storage below.old).process)
            asked (serving self.new (B.storage below.new).process)) }
        ensures block { IfOk result (NeedsOf self.old.shape) }
        ensures wanted { OnErr result (AskWants self.old.shape op.now (serving self.old (B.storage below.old).process)) }
        ensures err { OnErr result (IsAsItWas self.old self.new (B.storage below.old) (B.storage below.new)) }
    {
        let partition = home(op.act().key(), self.shape.k());
        let peers = self.peers();
        let d = partition.0 as usize;
        match &self.heads[d] {
            None => Ok(Asking::Done(CallStep::only(self.alloc, Answer::Moved))),
            Some(head) => ask(
                partition,
                call,
                op,
                head,
                &peers,
                &mut self.replicas[d],
                &mut self.held[d],
                below,
            ),
        }
    }
}
