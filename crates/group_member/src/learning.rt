ghost use Rattle.std.specs.Prelude.{◌≡◌, ◌↔◌, [], ◌∷◌, IsTrue};
ghost use Rattle.group_wire.specs.Actions as act;
ghost use Rattle.group_member.specs.Acting.{ActsHanding, ActsWhere, AnswerComes, answer_handed};
ghost use Rattle.group_member.specs.Callers.{IsItsCaller};
ghost use Rattle.group_member.specs.Requests.{HasGateway};
ghost use Rattle.group_member.specs.Words.{CanReadFrom};

use crate::member::Member;
use crate::names::gateway_of;
use crate::telling::{tell_any, told_reply};
use group_types::{CALLERS, ProcessId};
use head_service::Settlement;
use link_frames::Told;

impl Member {
    /// Whether an answer is for a caller of the member. Another is a misfit.
    pub fn may_learn(&self, told: &Told) -> bool
        ensures { IsTrue result ↔ IsItsCaller self.now.callers told.now.caller }
    {
        self.callers.has(told.caller())
    }

    /// The answer of another comes. It takes no memory.
    pub fn learn(&mut self, from: ProcessId, told: Told)
        requires reads { CanReadFrom self.old.words from }
        requires its { IsItsCaller self.old.callers told.caller }
        ensures { ActsWhere (AnswerComes from self.old.words.name told) (act.Learn from self.old.words.name ∷ [])
            (λ out. out) self.old self.new }
    {
        self.callers.learn(told, self.signs.pinged());
    }

    /// Whether what settled can be collected: its caller's gateway is of the group.
    pub fn may_collect(&self, due: &Settlement) -> bool
        ensures { IsTrue result ↔ HasGateway self.now.words.shape due.now.update.caller }
    {
        let caller = due.update.caller;
        caller < CALLERS && gateway_of(self.words.shape(), caller).is_some()
    }

    /// The call of an update that settled is collected: what goes to its caller's gateway, if that is another, where its
    /// reply is there. A caller of the member's own learns it at once. It takes no memory.
    pub fn collect_due(&mut self, due: &Settlement) -> Option<Told>
        requires { HasGateway self.old.words.shape due.now.update.caller }
        ensures { ActsHanding (act.Collect due.now.update.caller due.now.update.call self.old.words.name
            ∷ act.Learn self.old.words.name self.old.words.name ∷ [])
            (answer_handed self.old.words.shape result) self.old self.new }
    {
        let (caller, call) = (due.update.caller, due.update.call);
        let told = told_reply(caller, call, self.node.collect(caller, call));
        tell_any(&self.words, &mut self.callers, self.signs.pinged(), told)
    }
}
