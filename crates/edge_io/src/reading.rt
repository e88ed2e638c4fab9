ghost use Rattle.std.specs.Prelude.{◌≡◌, ◌<◌, ◌^◌, vec_len, IfOk};
ghost use Rattle.edge_io.specs.Faults.{HasCauseOf};
ghost use Rattle.edge_io.specs.Reading.{HasReadWhole, bytes_in};

use crate::fault::ReadFault;
use crate::source::Source;
use std::alloc::{AllocError, Global};

/// The most bytes that one read takes.
const PIECE: usize = 65_536;

/// Reads a source to its end, or to the first byte above `most`.
pub fn read_whole<S: Source>(
    alloc: Global,
    source: &mut S,
    most: usize,
) -> Result<Vec<u8>, ReadFault>
    requires { most < 2 ^ 63 }
    ensures read { HasReadWhole most (S.input source.old) (S.input source.new) (S.faults source.old) (S.faults source.new) (bytes_in result) }
    ensures cause { HasCauseOf (S.faults source.old) (S.faults source.new) result ReadFault.Failed }
{
    let mut piece = piece(alloc)?;
    let mut bytes = Vec::new(alloc);
    'pieces: while bytes.len() <= most {
        let room = &mut piece[..PIECE.min(most + 1 - bytes.len())];
        match source.read(room)? {
            0 => return Ok(bytes),
            n => bytes.extend_from_slice(&room[..n])?,
        }
    }
    Err(ReadFault::TooLong)
}

fn piece(alloc: Global) -> Result<Vec<u8>, AllocError>
    ensures { IfOk result (λ piece. vec_len piece ≡ PIECE) }
{
    vec![in alloc; 0; PIECE]
}
