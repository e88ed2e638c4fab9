ghost use Rattle.std.specs.Prelude.{◌≡◌, ◌↔◌, IsTrue};
ghost use Rattle.transcript_text.specs.Reading.{IsBehind, IsSplitAt};

use memchr::memchr;

/// What is behind this front, where the text has it.
pub fn after<'a>(front: &[u8], text: &'a [u8]) -> Option<&'a [u8]>
    ensures { IsBehind front.now text.now result }
{
    text.strip_prefix(front)
}

/// Whether a line is this text.
pub(crate) fn is_text(line: &[u8], text: &[u8]) -> bool
    ensures { IsTrue result ↔ (line.now ≡ text.now) }
{
    line == text
}

/// What stands before the first such byte, and what is behind it.
pub(crate) fn cut(byte: u8, text: &[u8]) -> Option<(&[u8], &[u8])>
    ensures { IsSplitAt byte text.now result }
{
    let at = memchr(byte, text)?;
    Some((&text[..at], &text[at + 1..]))
}
