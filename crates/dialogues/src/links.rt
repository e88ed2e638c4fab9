// Streams of frames in hexadecimal, a line each, on a link of a group 4 2. What is told of a stream is the frames that a
// reader gives, and what is left behind them, if it is so under every cutting and the frames are written again as they
// were read. A line that isn't hexadecimal is told as it stands.
mod reading;
mod stream;

use crate::links::stream::told_of;
use group_types::Shape;
use std::alloc::{AllocError, Global};

/// A line for each stream.
pub(crate) fn told_each(alloc: Global, streams: &str) -> Result<String, AllocError> {
    let mut told = String::new(alloc);
    let Ok(shape) = Shape::new(4, 2, 1024, 4096) else {
        return Ok(told);
    };
    'streams: for line in streams.lines() {
        match hex::decode(alloc, line.as_bytes()) {
            Ok(stream) => told.push_str(&told_of(alloc, shape, &stream)?)?,
            Err(_) => told.push_str(line)?,
        }
        told.push('\n')?;
    }
    Ok(told)
}
