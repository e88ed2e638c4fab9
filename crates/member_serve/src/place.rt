ghost use Rattle.std.specs.Prelude.{◌<◌, length, IfSome};

use memchr::memchr;

/// Where a byte stands first in a text.
pub(crate) fn place_of(byte: u8, text: &[u8]) -> Option<usize>
    ensures { IfSome result (λ at. at < length text.now) }
{
    memchr(byte, text)
}
