// Sources, sinks and listeners in memory.
use crate::fixtures::same;
use edge_io::{
    Failed, Listener, MemoryListener, MemorySink, MemorySource, Sink, SinkFault, Source,
};
use std::alloc::Global;
use std::process::Abort;

const TEXT: &[u8] = b"abcdefghijklmnopqrstuvwxyz";

#[test]
fn hands_out_pieces(rt: HostRuntime) {
    let rows = [
        (1, [1, 1, 1, 1]),
        (7, [7, 7, 7, 5]),
        (65_536, [10, 10, 6, 0]),
    ];
    for (piece, counts) in rows {
        let source = MemorySource::new(rt.alloc(), TEXT, &[]).expect(&rt, "a source");
        hands_out(&rt, source.with_piece(piece), counts);
    }
}

// The counts of bytes that the first reads of a source over the text give.
fn hands_out(rt: &impl Abort, mut source: MemorySource, counts: [usize; 4]) {
    let mut rest = TEXT;
    for count in counts {
        let mut into = [0; 10];
        assert_eq!(rt; source.read(&mut into), Ok(count), "of {counts:?}");
        rest = rest
            .strip_prefix(&into[..count])
            .expect(rt, "the bytes that come next");
    }
}

#[test]
fn fails_by_number(rt: HostRuntime) {
    let source = MemorySource::new(rt.alloc(), b"abc", &[3, 1]).expect(&rt, "a source");
    let mut source = source.with_piece(2);
    let mut into = [0; 9];
    for answer in [Err(Failed), Ok(2), Err(Failed), Ok(1), Ok(0), Ok(0)] {
        same(&rt, source.read(&mut into), answer);
    }
    same(&rt, &into[..2], b"cb".as_slice());
}

#[test]
fn takes_whole_pieces_and_fails_by_number(rt: HostRuntime) {
    for length in [1, 7, 65_536] {
        let piece = vec![in rt.alloc(); b'x'; length].expect(&rt, "a piece");
        takes_whole(&rt, rt.alloc(), &piece);
    }
}

fn takes_whole(rt: &impl Abort, alloc: Global, piece: &[u8]) {
    let mut sink = MemorySink::new(alloc, &[2]).expect(rt, "a sink");
    let first = [sink.write(piece), sink.write(piece)];
    same(rt, first, [Ok(piece.len()), Err(SinkFault::Failed)]);
    same(rt, sink.bytes(), piece);
    same(rt, [sink.write(b""), sink.write(b"end")], [Ok(0), Ok(3)]);
    same(
        rt,
        sink.bytes().strip_prefix(piece),
        Some(b"end".as_slice()),
    );
}

#[test]
fn counts_listen_and_accept_together(rt: HostRuntime) {
    let none = Vec::new(rt.alloc());
    let mut listener = MemoryListener::new(rt.alloc(), none, &[1, 4]).expect(&rt, "a listener");
    same(
        &rt,
        (listener.listen("here"), listener.listen("here")),
        (Err(Failed), Ok(())),
    );
    let ends = [
        comes(&mut listener),
        comes(&mut listener),
        comes(&mut listener),
    ];
    same(&rt, ends, [Ok(false), Err(Failed), Ok(false)]);
}

// Whether a connection comes.
fn comes(listener: &mut MemoryListener) -> Result<bool, Failed> {
    Ok(listener.accept()?.is_some())
}
