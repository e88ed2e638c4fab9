ghost use Rattle.std.specs.Prelude.{◌↔◌, IsTrue};
ghost use Rattle.transcript_text.specs.Reading.{ReadsFront};
ghost use Rattle.transcript_text.specs.Texts.{FitsName, TellsReply, text_of_name};

use crate::number::{number_below_up_to, number_up_to};
use crate::word::after;

/// The name of a call: its caller, and its place among that caller's asks, from 0.
#[derive(Clone, Copy, Debug, PartialEq, Eq)]
pub struct Name {
    pub caller: u32,
    pub call: u64,
}

/// The name of the call that a line of the log is of, and what is behind it.
pub fn named(line: &[u8]) -> Option<(Name, &[u8])>
    ensures { ReadsFront FitsName text_of_name line.now result }
{
    let numbers = after(b"= ", line)?;
    let (caller, call) = number_below_up_to(b'.', numbers, 256)?;
    let (call, rest) = number_up_to(b' ', call)?;
    let caller = caller as u32;
    Some((Name { caller, call }, rest))
}

/// Whether what is behind a name is an op and then this reply.
pub fn tells(rest: &[u8], reply: &[u8]) -> bool
    ensures { IsTrue result ↔ TellsReply rest.now reply.now }
{
    match rest.strip_suffix(reply) {
        Some(front) => front.ends_with(b" "),
        None => false,
    }
}
