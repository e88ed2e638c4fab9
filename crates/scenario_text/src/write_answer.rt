ghost use Rattle.std.specs.Prelude.{◌≡◌, IfOk};
ghost use Rattle.scenario_text.specs.Texts.{answer_text, cause_text};

use crate::reply_text::{joined, write_reply};
use group_calls::{Answer, Cause};
use std::alloc::{AllocError, Global};

/// The text of an answer, without a line end.
pub fn write_answer(alloc: Global, answer: &Answer) -> Result<Vec<u8>, AllocError>
    ensures { IfOk result (λ text. text.items ≡ answer_text answer.now) }
{
    match answer {
        Answer::Reply(reply) => joined(
            Vec::from_slice(alloc, b"reply ")?,
            &write_reply(alloc, reply)?,
        ),
        Answer::Ticket(number) => Ok(format!(in alloc; "ticket {number}")?.into_bytes()),
        Answer::Retry(cause) => write_cause(alloc, cause),
        Answer::Stale(call) => Ok(format!(in alloc; "stale {call}")?.into_bytes()),
        Answer::NotYet => Vec::from_slice(alloc, b"not_yet"),
        Answer::NoSpace => Vec::from_slice(alloc, b"no_space"),
        Answer::Moved => Vec::from_slice(alloc, b"moved"),
        Answer::Lost => Vec::from_slice(alloc, b"lost"),
        Answer::Down => Vec::from_slice(alloc, b"down"),
        Answer::Idle => Vec::from_slice(alloc, b"idle"),
        Answer::Stranger => Vec::from_slice(alloc, b"stranger"),
        Answer::Done => Vec::from_slice(alloc, b"done"),
        Answer::AlreadyDead => Vec::from_slice(alloc, b"already_dead"),
        Answer::Gone => Vec::from_slice(alloc, b"gone"),
    }
}

fn write_cause(alloc: Global, cause: &Cause) -> Result<Vec<u8>, AllocError>
    ensures { IfOk result (λ text. text.items ≡ cause_text cause.now) }
{
    match cause {
        Cause::Pending { partition, number } => {
            let front = format!(in alloc; "retry pending {}", partition.0)?;
            joined(
                front.into_bytes(),
                format!(in alloc; " {number}")?.as_bytes(),
            )
        }
        Cause::Block { block } => Ok(format!(in alloc; "retry block {block}")?.into_bytes()),
    }
}
