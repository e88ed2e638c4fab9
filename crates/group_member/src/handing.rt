ghost use Rattle.std.specs.Prelude.{◌≡◌, [], option_copied, slice_get, true, false, IfSome, IfNone};
ghost use Rattle.group_types.specs.Lists.{at};
ghost use Rattle.group_types.specs.Names as names;
ghost use Rattle.group_types.specs.Names.{IsProcess};
ghost use Rattle.membership.specs.Members.{knows_dead};
ghost use Rattle.group_member.specs.Acting.{Acts, ActsHanding, message_handed};

use crate::member::Member;
use group_message::Message;
use group_types::ProcessId;

impl Member {
    /// The oldest message for a process that wasn't handed out, which stays there.
    pub fn first(&self, to: ProcessId) -> Option<&Message>
        requires { IsProcess self.now.words.shape to }
        ensures { option_copied result
            ≡ slice_get (at [] self.now.node.links (names.index_of self.now.words.shape to)) 0 }
    {
        self.node.first(to)
    }

    /// Hands out the oldest message for a process that isn't cut. It takes no memory.
    pub fn hand_out(&mut self, to: ProcessId) -> Option<Message>
        requires member { IsProcess self.old.words.shape to }
        requires uncut { knows_dead self.old.words.cut to ≡ false }
        ensures handed { IfSome result (λ m. ActsHanding [] (message_handed to m) self.old self.new) }
        ensures nothing { IfNone result (self.new ≡ self.old) }
        ensures first { result ≡ slice_get (at [] self.old.node.links (names.index_of self.old.words.shape to)) 0 }
    {
        if self.node.first(to).is_none() {
            return None;
        }
        self.node.hand_out(to)
    }

    /// Takes the oldest message for a process that is cut, which is to be sent to nobody. It takes no memory.
    pub fn take_lost(&mut self, to: ProcessId) -> Option<Message>
        requires member { IsProcess self.old.words.shape to }
        requires cut { knows_dead self.old.words.cut to ≡ true }
        ensures acts { Acts [] self.old self.new }
        ensures first { result ≡ slice_get (at [] self.old.node.links (names.index_of self.old.words.shape to)) 0 }
    {
        self.node.hand_out(to)
    }
}
