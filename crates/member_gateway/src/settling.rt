// What settled is collected, and what a member tells goes to the callers' gateways.
ghost use Rattle.std.specs.Prelude.{◌≡◌};
ghost use Rattle.member_gateway.specs.Calls.{GoesQuietly};

use crate::links::Links;
use crate::sets::with;
use crate::work::MemberWork;
use group_calls::{Answer, Cause};
use group_member::gateway_of;
use group_node::index_of;
use head_service::Settlement;
use link_frames::{Frame, Told};

impl MemberWork {
    /// These settled by a call of the member: they are due, and what waited for them can go on.
    pub(crate) fn settle(&mut self, settled: Vec<Settlement>)
        ensures same { self.new ≡ self.old }
    {
        if settled.is_empty() {
            return;
        }
        self.has_settled = true;
        self.calls.stir();
        self.parking.settle(&settled);
        self.dues.set(settled);
    }

    /// Collects the calls that are due, as long as what is told can go out.
    pub(crate) fn collect<L: Links>(&mut self, links: &mut L)
        ensures goes { GoesQuietly self.old self.new }
    {
        'dues: for _ in 0..self.dues.len() {
            if !self.outgoing.is_clear() {
                return;
            }
            let Some(due) = self.dues.pop() else {
                return;
            };
            self.collect_one(links, &due);
        }
    }

    fn collect_one<L: Links>(&mut self, links: &mut L, due: &Settlement)
        ensures goes { GoesQuietly self.old self.new }
    {
        let told = self.collect_due(due);
        self.see(due.update.caller);
        if let Some(told) = told {
            self.tell(links, told);
        }
    }

    /// What is told of a call goes to its caller's gateway.
    pub(crate) fn tell<L: Links>(&mut self, links: &mut L, told: Told)
        ensures same { self.new ≡ self.old }
    {
        let Some(to) = gateway_of(self.shape(), told.caller()) else {
            return;
        };
        if self.awaits_blocks() && matches!(told.answer(), Answer::Retry(Cause::Block { .. })) {
            self.parking.block(told.caller());
        }
        let to = with(0, index_of(self.shape(), to));
        self.outgoing.post(links, to, Frame::Told(told));
    }
}
