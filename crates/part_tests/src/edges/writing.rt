// Writes that the system interrupts.
use crate::fixtures::same;
use edge_io::{Sink, SinkFault, WriteEdge};
use std::io;
use std::io::{ErrorKind, Write};

// Gives this error this many times, and then takes at most `most` bytes a call.
#[derive(Drop)]
struct FailsFirst {
    kind: ErrorKind,
    times: u32,
    most: usize,
}

impl Write for FailsFirst {
    fn write(&mut self, piece: &[u8]) -> io::Result<usize> {
        if self.times > 0 {
            self.times -= 1;
            return Err(self.kind.into());
        }
        Ok(piece.len().min(self.most))
    }

    fn flush(&mut self) -> io::Result<()> {
        Ok(())
    }
}

#[test]
fn tries_interrupted_writes_again(rt: HostRuntime) {
    let kind = ErrorKind::Interrupted;
    let failed = Err(SinkFault::Failed);
    for (times, first) in [
        (0, Ok(2)),
        (1, Ok(2)),
        (1_000_000, Ok(2)),
        (1_000_001, failed),
    ] {
        let mut sink = WriteEdge::new(FailsFirst {
            kind,
            times,
            most: 2,
        });
        let found = [sink.write(b"abc"), sink.write(b"abc")];
        assert_eq!(rt; found, [first, Ok(2)], "after {times} interruptions");
    }
    let mut sink = WriteEdge::new(FailsFirst {
        kind: ErrorKind::Other,
        times: 1,
        most: 0,
    });
    let found = [sink.write(b""), sink.write(b"abc"), sink.write(b"")];
    same(&rt, found, [failed, failed, Ok(0)]);
}
