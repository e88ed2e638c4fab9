ghost use Rattle.std.specs.Prelude.{◌≡◌, ◌≤◌, length, take, drop, vec_len};
ghost use Rattle.edge_io.specs.Faults.{HasCause};
ghost use Rattle.edge_io.specs.Moving.{Appends};

use crate::try_stream::TryStream;
use edge_io::Failed;

/// Sends bytes until all are sent or the stream would have to wait, and counts those that went out.
pub(crate) fn send<S: TryStream>(
    stream: &mut S,
    bytes: &[u8],
    sent: &mut usize,
) -> Result<(), Failed>
    requires none { sent.old ≡ 0 }
    ensures within { sent.new ≤ length bytes.now }
    ensures sent { Appends (S.held stream.old) (S.held stream.new) (take sent.new bytes.now) }
    ensures input { S.input stream.new ≡ S.input stream.old }
    ensures cause { HasCause (S.faults stream.old) (S.faults stream.new) result }
{
    'pieces: while *sent < bytes.len() {
        let n = stream.try_write(&bytes[*sent..])?;
        if n == 0 {
            break 'pieces;
        }
        *sent += n;
    }
    Ok(())
}

/// Takes the first so many bytes away.
pub(crate) fn cut_front(bytes: &mut Vec<u8>, count: usize)
    requires within { count ≤ vec_len bytes.old }
    ensures rest { bytes.new.items ≡ drop count bytes.old.items }
{
    let rest = bytes.len() - count;
    bytes.copy_within(count.., 0);
    bytes.truncate(rest);
}
