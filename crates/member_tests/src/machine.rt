// The rows of a client, as one machine answers them.
use crate::rows::{append_text, row_at};
use edge_io::{FixedClock, MemorySink, MemorySource};
use group_types::Shape;
use scenario_session::{SessionEnd, session};
use std::alloc::{AllocError, Global};
use std::process::Abort;

/// How many rows are said: all of them twice.
const COUNT: u64 = 28;

const KEY: u8 = b'a';

/// What a client says that does the rows, and gets its key behind each.
fn said(alloc: Global) -> Result<Vec<u8>, AllocError> {
    let mut text = Vec::new(alloc);
    for number in 0..COUNT {
        append_text(&mut text, row_at(number).says, KEY)?;
        append_text(&mut text, b"get @\r\n", KEY)?;
    }
    Ok(text)
}

/// What it hears, as the rows tell.
fn wanted(alloc: Global) -> Result<Vec<u8>, AllocError> {
    let mut text = Vec::new(alloc);
    for number in 0..COUNT {
        append_text(&mut text, row_at(number).hears, KEY)?;
        append_text(&mut text, row_at(number).then, KEY)?;
    }
    Ok(text)
}

/// The machine answers what is said with what is wanted.
fn answers(rt: &impl Abort, alloc: Global, said: &[u8], wanted: &[u8]) {
    let shape = Shape::new(2, 1, 64, 256).expect(rt, "a shape");
    let mut source = MemorySource::new(alloc, said, &[]).expect(rt, "a source");
    let mut sink = MemorySink::new(alloc, &[]).expect(rt, "a sink");
    let end = session(alloc, shape, &mut source, &mut sink, &FixedClock::new(0));
    assert_eq!(rt; (end, sink.bytes()), (SessionEnd::Done, wanted));
}

#[test]
fn answers_the_rows(rt: HostRuntime) {
    let said = said(rt.alloc()).expect(&rt, "memory");
    let wanted = wanted(rt.alloc()).expect(&rt, "memory");
    answers(&rt, rt.alloc(), &said, &wanted);
}
