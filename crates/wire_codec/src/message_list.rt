ghost use Rattle.std.specs.Prelude.{◌≡◌};

use group_message::Message;
use std::marker::Model;

/// Messages in the order in which they were sent.
#[derive(Debug, Drop)]
pub struct MessageList {
    messages: Vec<Message>,
}

impl Model for MessageList {
    ghost use Rattle.std.specs.Prelude.{List};
    ghost use Rattle.group_message.specs.declared.message.Message.{Message};

    ghost Value = { List Message };

    ghost view = { λ list. list.messages.items };
}

impl MessageList {
    /// The messages, in order.
    pub fn messages(&self) -> &[Message]
        ensures { result.now ≡ self.now }
    {
        &self.messages
    }
}

impl From<Vec<Message>> for MessageList {
    ghost from_gives = { λ messages list. list ≡ messages.items };

    fn from(messages: Vec<Message>) -> MessageList {
        MessageList { messages }
    }
}

impl From<MessageList> for Vec<Message> {
    ghost from_gives = { λ list messages. messages.items ≡ list };

    fn from(list: MessageList) -> Vec<Message> {
        list.messages
    }
}
