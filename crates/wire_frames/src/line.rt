ghost use Rattle.std.specs.Prelude.{◌≡◌, IfOk};
ghost use Rattle.std.specs.List.{AllByRecursion};
ghost use Rattle.std.specs.String.{string_bytes};
ghost use Rattle.wire_codec.specs.Fits.{HasFrame};
ghost use Rattle.wire_frames.specs.Line.{line_of, message_lines};

use group_message::Message;
use std::alloc::{AllocError, Global};
use wire_codec::{kind_of, spelled_length};

/// The lines of messages, in order.
pub(crate) fn lines_of(alloc: Global, messages: &[Message]) -> Result<Vec<u8>, AllocError>
    requires { AllByRecursion HasFrame messages.now }
    ensures { IfOk result (λ text. text.items ≡ message_lines messages.now) }
{
    let mut text = Vec::new(alloc);
    'messages: for message in messages {
        text.extend_from_slice(line_of(alloc, message)?.as_bytes())?;
    }
    Ok(text)
}

/// The line of a message: its kind, and how many bytes stand behind the length in its frame.
fn line_of(alloc: Global, message: &Message) -> Result<String, AllocError>
    requires { HasFrame message.now }
    ensures { IfOk result (λ line. string_bytes line ≡ line_of message.now) }
{
    let kind = kind_of(message);
    let length = spelled_length(message);
    format!(in alloc; "frame {kind} {length}\n")
}
