// What is read of a stream.
use crate::links::reading::Reading;
use group_types::Shape;
use std::alloc::{AllocError, Global};

/// What is read of a stream, if it is the same in any two pieces and a byte at a time.
pub(crate) fn told_of(alloc: Global, shape: Shape, stream: &[u8]) -> Result<String, AllocError> {
    let told = told_in_two(alloc, shape, stream, &[])?;
    'cuts: for cut in 0..stream.len() {
        let (front, rest) = stream.split_at(cut);
        if told_in_two(alloc, shape, front, rest)? != told {
            return format!(in alloc; "cut at {cut} it is otherwise");
        }
    }
    if told_by_bytes(alloc, shape, stream)? != told {
        return format!(in alloc; "a byte at a time it is otherwise");
    }
    Ok(told)
}

fn told_in_two(
    alloc: Global,
    shape: Shape,
    front: &[u8],
    rest: &[u8],
) -> Result<String, AllocError> {
    let mut reading = Reading::new(alloc, shape);
    reading.feed(front)?;
    reading.feed(rest)?;
    reading.end()
}

fn told_by_bytes(alloc: Global, shape: Shape, stream: &[u8]) -> Result<String, AllocError> {
    let mut reading = Reading::new(alloc, shape);
    'bytes: for &byte in stream {
        reading.feed(&[byte])?;
    }
    reading.end()
}
