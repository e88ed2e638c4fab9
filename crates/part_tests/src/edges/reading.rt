// Reads that the system interrupts.
use edge_io::{ReadEdge, Source};
use std::io;
use std::io::{ErrorKind, Read};

// Gives this error this many times, and then one byte a call.
#[derive(Drop)]
struct FailsFirst {
    kind: ErrorKind,
    times: u32,
}

impl Read for FailsFirst {
    fn read(&mut self, into: &mut [u8]) -> io::Result<usize> {
        if self.times > 0 {
            self.times -= 1;
            return Err(self.kind.into());
        }
        Ok(into.len().min(1))
    }
}

#[test]
fn tries_interrupted_reads_again(rt: HostRuntime) {
    let interrupted = ErrorKind::Interrupted;
    let rows = [
        (interrupted, 0, true),
        (interrupted, 1, true),
        (interrupted, 1_000_000, true),
        (interrupted, 1_000_001, false),
        (ErrorKind::Other, 1, false),
    ];
    for (kind, times, reads) in rows {
        let mut source = ReadEdge::new(FailsFirst { kind, times });
        let found = (source.read(&mut [0; 4]).is_ok(), source.read(&mut [0; 4]));
        assert_eq!(rt; found, (reads, Ok(1)), "after {times} errors");
    }
}
