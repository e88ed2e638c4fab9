ghost use Rattle.std.specs.Prelude.{◌≡◌, ◌≤◌, ℕ, false, List, [], length};
ghost use Rattle.edge_io.specs.Faults.{HasCauseOf, Rose};
ghost use Rattle.group_message.specs.declared.message.Message.{Message};
ghost use Rattle.wire_codec.specs.Stream.{CanBeFed, HasDecoded};
ghost use Rattle.wire_frames.specs.Framed.{HasFramed};
ghost use Rattle.wire_frames.specs.Pieces.{IsPieceListed, WasFed, status_in};

use crate::ending::{end_stream, tell_bad};
use crate::line::lines_of;
use crate::status::FramesStatus;
use edge_io::{Sink, Source, write_all};
use std::alloc::Global;
use wire_codec::Decoder;

/// The most bytes of a stream.
const LONGEST_INPUT: u64 = 1 << 62;

/// The most bytes that one read takes.
const PIECE: usize = 65_536;

/// Reads a stream of frames to its end, and writes a line for each message: `frame`, its kind, and how many bytes stand
/// behind the length in its frame.
pub fn frames<S: Source, K: Sink>(alloc: Global, source: &mut S, sink: &mut K) -> FramesStatus
    ensures framed { HasFramed (S.input source.old) (S.input source.new) (K.held sink.old) (K.held sink.new) result }
    ensures read { result ≡ FramesStatus.ReadFault → Rose (S.faults source.old) (S.faults source.new) }
    ensures write { result ≡ FramesStatus.WriteFault → Rose (K.faults sink.old) (K.faults sink.new) }
    ensures later { K.faults sink.old ≤ K.faults sink.new }
{
    match list_stream(alloc, source, sink) {
        Ok(()) => FramesStatus::Done,
        Err(status) => status,
    }
}

fn list_stream<S: Source, K: Sink>(
    alloc: Global,
    source: &mut S,
    sink: &mut K,
) -> Result<(), FramesStatus>
    ensures framed { HasFramed (S.input source.old) (S.input source.new) (K.held sink.old) (K.held sink.new)
        (status_in result) }
    ensures read { HasCauseOf (S.faults source.old) (S.faults source.new) result FramesStatus.ReadFault }
    ensures write { HasCauseOf (K.faults sink.old) (K.faults sink.new) result FramesStatus.WriteFault }
{
    let mut decoder = Decoder::new(alloc);
    let mut room = vec![in alloc; 0; PIECE]?;
    list_pieces(alloc, source, sink, &mut decoder, &mut room)
}

/// Reads piece by piece into `room`, and writes the lines of each before the next is read.
fn list_pieces<S: Source, K: Sink>(
    alloc: Global,
    source: &mut S,
    sink: &mut K,
    decoder: &mut Decoder,
    room: &mut [u8],
) -> Result<(), FramesStatus>
    requires room { length room.old ≡ PIECE }
    requires good { decoder.old.bad ≡ false }
    requires read { HasDecoded decoder.old [] [] }
    ensures framed { HasFramed (S.input source.old) (S.input source.new) (K.held sink.old) (K.held sink.new)
        (status_in result) }
    ensures read { HasCauseOf (S.faults source.old) (S.faults source.new) result FramesStatus.ReadFault }
    ensures write { HasCauseOf (K.faults sink.old) (K.faults sink.new) result FramesStatus.WriteFault }
{
    let mut count = 0;
    'pieces: while count < LONGEST_INPUT {
        let most = (LONGEST_INPUT - count).min(PIECE as u64) as usize;
        let into = &mut room[..most];
        let n = source.read(into)?;
        if n == 0 {
            return end_stream(decoder);
        }
        list_piece(alloc, sink, decoder, &into[..n])?;
        tell_bad(decoder)?;
        count += n as u64;
    }
    Err(FramesStatus::Worn)
}

/// Writes the lines of the messages that are whole with a piece.
fn list_piece<K: Sink>(
    alloc: Global,
    sink: &mut K,
    decoder: &mut Decoder,
    piece: &[u8],
) -> Result<(), FramesStatus>
    requires taken { CanBeFed decoder.old (length piece.now) }
    requires fed { WasFed decoder.old }
    ensures listed { (input : List ℕ) (messages : List Message) → HasDecoded decoder.old input messages
        → IsPieceListed decoder.old decoder.new input messages piece.now (K.held sink.old) (K.held sink.new) result }
    ensures cause { HasCauseOf (K.faults sink.old) (K.faults sink.new) result FramesStatus.WriteFault }
{
    let given = decoder.feed(piece)?;
    let lines = lines_of(alloc, given.messages())?;
    write_all(sink, &lines)?;
    Ok(())
}
