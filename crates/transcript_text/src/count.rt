ghost use Rattle.std.specs.Prelude.{codes, ◌++◌};
ghost use Rattle.std.specs.Fmt.{decimal};
ghost use Rattle.transcript_text.specs.Reading.{ReadsAs};
ghost use Rattle.transcript_text.specs.Texts.{FitsNumber};

use crate::number::number;
use crate::word::after;

/// How many places a line counts.
pub fn placed(line: &[u8]) -> Option<u64>
    ensures { ReadsAs FitsNumber (λ n. codes "placed " ++ decimal n) line.now result }
{
    number(after(b"placed ", line)?)
}

/// How many deliveries a line counts.
pub fn drained(line: &[u8]) -> Option<u64>
    ensures { ReadsAs FitsNumber (λ n. codes "drained " ++ decimal n) line.now result }
{
    number(after(b"drained ", line)?)
}
