ghost use Rattle.std.specs.Prelude.{◌≡◌, ◌↔◌, [], ◌∷◌, IsTrue};
ghost use Rattle.membership.specs.Members.{with_dead};
ghost use Rattle.group_wire.specs.Actions as act;
ghost use Rattle.group_member.specs.Acting.{Acts, ActsHanding, ActsWhere, SetComes, set_handed};
ghost use Rattle.group_member.specs.Words.{CanCut, CanPermit, CanReadFrom};

use crate::member::Member;
use group_types::ProcessId;
use membership::Members;

impl Member {
    /// Whether another can be cut: no more than m are cut with it.
    pub fn may_cut(&self, x: ProcessId) -> bool
        ensures { IsTrue result ↔ CanCut self.now.words x }
    {
        self.words.may_cut(x)
    }

    /// Another is cut: the member reads nothing from it and sends nothing to it, for ever.
    pub fn cut(&mut self, x: ProcessId)
        requires { CanCut self.old.words x }
        ensures acts { Acts (act.Cut x self.old.words.name ∷ []) self.old self.new }
        ensures cut { self.new ≡ record self.old {
          words
              = record self.old.words { cut = with_dead self.old.words.cut x };
        } }
    {
        self.words.cut(x);
    }

    /// The member says whom it has cut: the set goes to all that it hasn't cut.
    pub fn say(&self) -> Members
        ensures acts { ActsHanding (act.Say self.now.words.name ∷ []) (set_handed result) self.now self.now }
        ensures set { result ≡ self.now.words.cut }
    {
        self.words.all_cut()
    }

    /// What another said comes.
    pub fn hear(&mut self, from: ProcessId, set: &Members)
        requires { CanReadFrom self.old.words from }
        ensures { ActsWhere (SetComes from self.old.words.name set.now) (act.Hear from self.old.words.name ∷ [])
            (λ out. out) self.old self.new }
    {
        self.words.hear(from, set);
    }

    /// Whether each that isn't cut has said that it has cut all that the member has.
    pub fn may_permit(&self) -> bool
        ensures { IsTrue result ↔ CanPermit self.now.words }
    {
        self.words.may_permit()
    }

    /// The member permits itself to take the deaths of all that it has cut.
    pub fn permit(&mut self)
        requires { CanPermit self.old.words }
        ensures acts { Acts (act.Permit self.old.words.name ∷ []) self.old self.new }
        ensures permitted { self.new ≡ record self.old {
          words
              = record self.old.words { permitted = self.old.words.cut };
        } }
    {
        self.words.permit();
    }
}
