ghost use Rattle.std.specs.Prelude.{◌≡◌, ◌==◌, map, IfOk};
ghost use Rattle.std.specs.List.{slice_split};

use std::alloc::{AllocError, Global};

/// What stands between the separators.
pub(crate) fn split(alloc: Global, separator: u8, text: &[u8]) -> Result<Vec<&[u8]>, AllocError>
    ensures { IfOk result (λ parts. map (λ part. part.now) parts.items ≡ slice_split (λ b. b == separator) text.now) }
{
    text.split(|byte| *byte == separator).collect(alloc)
}
