ghost use Rattle.std.specs.Prelude.{◌≡◌, ◌↔◌, ◌-◌, ◌+◌, ◌<◌, ◌^◌, [], ◌∷◌, nat_lt, IsTrue};
ghost use Rattle.group_types.specs.Lists.{at};
ghost use Rattle.group_types.specs.Names as names;
ghost use Rattle.group_types.specs.Names.{IsProcess};
ghost use Rattle.membership.specs.Members.{knows_dead};
ghost use Rattle.group_wire.specs.Actions as act;
ghost use Rattle.group_member.specs.Acting.{ActsHanding, ActsWhere, PingComes, PongComes, ping_handed, pong_handed};
ghost use Rattle.group_member.specs.Showing.{HasEnough, counts_for};
ghost use Rattle.group_member.specs.Words.{CanReadFrom};

use crate::member::Member;
use group_node::{index_of, process_at};
use group_types::ProcessId;
use membership::Members;

impl Member {
    /// Whether a ping has a number left.
    pub fn may_ping(&self) -> bool
        ensures { IsTrue result ↔ (self.now.signs.pinged < 2 ^ 64 - 1) }
    {
        self.signs.may_ping()
    }

    /// A ping goes to those of a set that aren't cut: its number.
    pub fn ping(&mut self, to: &Members) -> u64
        requires { self.old.signs.pinged < 2 ^ 64 - 1 }
        ensures acts { ActsHanding (act.Ping (knows_dead to.now) self.old.words.name ∷ [])
            (ping_handed (knows_dead to.now) self.old.words.cut result) self.old self.new }
        ensures number { result ≡ self.old.signs.pinged }
    {
        self.signs.ping()
    }

    /// The ping of another comes, and is answered: the pong for it.
    pub fn pong(&self, from: ProcessId, ping: u64) -> u64
        requires { CanReadFrom self.now.words from }
        ensures acts { ActsWhere (PingComes from self.now.words.name ping) (act.Pong from self.now.words.name ∷ [])
            (pong_handed from result) self.now self.now }
        ensures number { result ≡ ping }
    {
        ping
    }

    /// Whether a ping of this number was sent. A pong for another is a misfit.
    pub fn may_count(&self, ping: u64) -> bool
        ensures { IsTrue result ↔ (ping < self.now.signs.pinged) }
    {
        ping < self.signs.pinged()
    }

    /// The pong of another comes.
    pub fn count(&mut self, from: ProcessId, ping: u64)
        requires reads { CanReadFrom self.old.words from }
        requires sent { ping < self.old.signs.pinged }
        ensures { ActsWhere (PongComes from self.old.words.name ping) (act.Count from self.old.words.name ∷ [])
            (λ out. out) self.old self.new }
    {
        self.signs.count(index_of(self.words.shape(), from), ping);
    }

    /// Whether another has answered a ping, or a later one.
    pub fn has_answered(&self, from: ProcessId, ping: u64) -> bool
        requires { IsProcess self.now.words.shape from }
        ensures { result ≡ nat_lt ping (at 0 self.now.signs.answered (names.index_of self.now.words.shape from)) }
    {
        self.signs
            .has_answered(index_of(self.words.shape(), from), ping)
    }

    /// Whether enough have answered a ping, or a later one: with those whose deaths are taken, which don't count as
    /// answers, at least m.
    pub fn has_enough(&self, ping: u64) -> bool
        ensures { IsTrue result ↔ HasEnough self.now.words self.now.signs ping }
    {
        let shape = self.words.shape();
        let mut many = 0u32;
        'all: for x in 0..shape.k() + shape.m() {
            many += u32::from(self.counts(x, ping));
        }
        shape.m() <= many
    }

    // Whether the process at an index has answered a ping, or a later one, or its death is taken.
    fn counts(&self, x: u32, ping: u64) -> bool
        requires { x < self.now.words.shape.k + self.now.words.shape.m }
        ensures { result ≡ counts_for self.now.words self.now.signs ping (names.process_at self.now.words.shape x) }
    {
        self.words.has_taken(process_at(self.words.shape(), x)) || self.signs.has_answered(x, ping)
    }
}
