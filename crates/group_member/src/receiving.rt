ghost use Rattle.std.specs.Prelude.{◌≡◌, ◌≢◌, IfOk, OnErr};
ghost use Rattle.group_types.specs.Names.{IsProcess};
ghost use Rattle.law_moves.specs.Known as known;
ghost use Rattle.group_member.specs.Receiving.{HasReceived};

use crate::member::Member;
use group_message::Message;
use group_types::ProcessId;
use head_service::Settlement;
use std::alloc::AllocError;

/// What became of a message.
#[derive(Debug, Drop)]
pub enum Received {
    /// It was received, and these updates settled, in order.
    Made(Vec<Settlement>),
    /// Its sender is cut.
    Unread,
    /// It doesn't fit what the member's process holds, or is a notice.
    Misfit,
}

impl Member {
    /// The message of another comes. After want of memory the member is as it was, and the message is given again.
    pub fn receive(&mut self, from: ProcessId, message: &Message) -> Result<Received, AllocError>
        requires sender { IsProcess self.old.words.shape from }
        requires other { from ≢ self.old.words.name }
        ensures received { IfOk result (λ r. HasReceived from message.now self.old self.new r) }
        ensures want { OnErr result (self.new ≡ self.old) }
    {
        if self.words.has_cut(from) {
            return Ok(Received::Unread);
        }
        if is_notice(message) {
            return Ok(Received::Misfit);
        }
        if !self.node.may_come(from, message) {
            return Ok(Received::Misfit);
        }
        let out = self.node.receive(from, message)?;
        Ok(Received::Made(out.settled))
    }
}

fn is_notice(message: &Message) -> bool
    ensures { result ≡ known.is_notice message.now }
{
    matches!(message, Message::Notice { .. })
}
