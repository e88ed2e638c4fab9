ghost use Rattle.std.specs.Prelude.{◌≡◌, ◌↔◌, [], ◌∷◌, length, IsTrue, IfOk, OnOk, OnErr, IfErr};
ghost use Rattle.group_types.specs.Names.{IsProcess};
ghost use Rattle.group_wire.specs.Actions as act;
ghost use Rattle.group_wire.specs.Sets.{entry_at};
ghost use Rattle.group_member.specs.Acting.{ActsWhere, RequestComes};
ghost use Rattle.group_member.specs.Requests.{CanTreat, IsRequestFrom};
ghost use Rattle.group_member.specs.Treating.{HasTreated};
ghost use Rattle.group_member.specs.Words.{CanReadFrom};

use crate::member::Member;
use crate::names::gateway_of;
use crate::telling::tell_any;
use crate::treating::{is_early, told_to, treat_at};
use group_calls::Answer;
use group_types::{CALLERS, ProcessId};
use head_service::Settlement;
use link_frames::{Request, Told, Wish};
use std::alloc::AllocError;

/// What became of a request.
#[derive(Debug, Drop)]
pub enum Treatment {
    /// Nothing was done, and it waits on: treated later, it may be answered otherwise.
    Early(Answer),
    /// It was treated: what goes to its caller's gateway, the updates that settled, in order, and whether a block session
    /// was opened.
    Made {
        told: Option<Told>,
        settled: Vec<Settlement>,
        opened: bool,
    },
}

impl Member {
    /// Whether a request can have been sent by a process of the group. One that can't is a misfit.
    pub fn may_be_from(&self, from: ProcessId, request: &Request) -> bool
        requires { IsProcess self.now.words.shape from }
        ensures { IsTrue result ↔ IsRequestFrom self.now.words.shape from request.now }
    {
        let (caller, _, wish) = request.parts();
        if CALLERS <= caller || gateway_of(self.words.shape(), caller) != Some(from) {
            return false;
        }
        match wish {
            Wish::Ask(_) => true,
            Wish::Trace(partition) => partition.0 < self.words.shape().k(),
        }
    }

    /// The request of another comes, and is parked until it is treated. After want of memory the member is as it was, and
    /// the request comes back.
    pub fn read(&mut self, from: ProcessId, request: Request) -> Result<(), Request>
        requires reads { CanReadFrom self.old.words from }
        requires sender { IsRequestFrom self.old.words.shape from request }
        ensures acts { OnOk result (ActsWhere (RequestComes from self.old.words.name request)
            (act.Read from self.old.words.name ∷ []) (λ out. out) self.old self.new) }
        ensures want { OnErr result (self.new ≡ self.old) }
        ensures back { IfErr result (λ r. r ≡ request) }
    {
        self.parked.push(request).map_err(|failed| failed.value)
    }

    /// How many requests are parked.
    pub fn parked(&self) -> usize
        ensures { result ≡ length self.now.parked }
    {
        self.parked.len()
    }

    /// Whether a request can be treated: it is parked, and the process has the numbers that it needs.
    pub fn may_treat(&self, place: usize) -> bool
        ensures { IsTrue result ↔ CanTreat self.now.words.shape self.now.node.process (entry_at self.now.parked place) }
    {
        if self.parked.len() <= place {
            return false;
        }
        match self.parked[place].parts().2 {
            Wish::Ask(op) => self.node.may_ask(op.act().key()),
            Wish::Trace(_) => true,
        }
    }

    /// The parked request at a place is treated, unless it comes too early: what that tells goes to its caller's gateway,
    /// or is learned at once by a caller of the member's own. After want of memory the member is as it was.
    pub fn treat(&mut self, place: usize) -> Result<Treatment, AllocError>
        requires { CanTreat self.old.words.shape self.old.node.process (entry_at self.old.parked place) }
        ensures treated { IfOk result (λ made. HasTreated place (entry_at self.old.parked place) self.old self.new made) }
        ensures want { OnErr result (self.new ≡ self.old) }
    {
        let request = &self.parked[place];
        let out = treat_at(self.alloc, &mut self.node, request)?;
        if is_early(request, &out.answer) {
            return Ok(Treatment::Early(out.answer));
        }
        let told = told_to(self.parked.remove(place), out.answer);
        let told = tell_any(&self.words, &mut self.callers, self.signs.pinged(), told);
        Ok(Treatment::Made {
            told,
            settled: out.settled,
            opened: out.opened,
        })
    }
}
