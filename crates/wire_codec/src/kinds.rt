ghost use Rattle.std.specs.Prelude.{◌≡◌};
ghost use Rattle.wire_codec.specs.Frame as spec;

use group_message::Message;

/// Which kind a message is of, as its frame says it.
pub fn kind_of(message: &Message) -> u8
    ensures { result ≡ spec.kind_of message.now }
{
    match message {
        Message::Update { .. } => 1,
        Message::Ack { .. } => 2,
        Message::Stable { .. } => 3,
        Message::Adopt { .. } => 4,
        Message::ReadBlock { .. } => 5,
        Message::Block { .. } => 6,
        Message::Mark { .. } => 7,
        Message::Row { .. } => 8,
        Message::Cease { .. } => 9,
        Message::Notice { .. } => 10,
    }
}
