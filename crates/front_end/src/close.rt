ghost use Rattle.std.specs.Prelude.{◌≡◌, ℕ, List, false};
ghost use Rattle.std.specs.List.{list_any};
ghost use Rattle.memc_proto.specs.Reader.{HasRead};
ghost use Rattle.memc_proto.specs.Reads.{is_quit};
ghost use Rattle.memc_proto.specs.declared.request.Request.{Request};
ghost use Rattle.front_end.specs.Connection.{IsEndAt};
ghost use Rattle.front_end.specs.Faults.{HasSinkCause};
ghost use Rattle.front_end.specs.Progress.{EndsConnection};

use crate::end::{ConnectionFault, End};
use crate::text::write_text;
use edge_io::Sink;
use memc_proto::{Reader, Request, too_long_text};

/// How a connection ends by what its reader read, if it does.
pub(crate) fn close_at<K: Sink>(
    reader: &Reader,
    quits: bool,
    sink: &mut K,
) -> Result<Option<End>, ConnectionFault>
    ensures closed { (input : List ℕ) (requests : List Request) → (read : HasRead reader.now input requests)
        → list_any is_quit requests ≡ quits
        → EndsConnection quits read.rest (K.held sink.old) (K.held sink.new) result }
    ensures cause { HasSinkCause (K.faults sink.old) (K.faults sink.new) result }
{
    if quits {
        return Ok(Some(End::Quit));
    }
    if reader.too_long() {
        write_text(sink, too_long_text())?;
        return Ok(Some(End::LineTooLong));
    }
    Ok(None)
}

/// The end of a connection whose input ended.
pub(crate) fn end_at(reader: &Reader) -> End
    ensures { (input : List ℕ) (requests : List Request) → (read : HasRead reader.now input requests)
        → list_any is_quit requests ≡ false → IsEndAt read.rest result }
{
    if reader.at_start() {
        End::Ended
    } else {
        End::Cut
    }
}

/// Whether one of the requests is a quit.
pub(crate) fn has_quit(requests: &[Request]) -> bool
    ensures { result ≡ list_any is_quit requests.now }
{
    requests.iter().any(|request| request.is_quit())
}
