// A client that says nothing more until it was answered, and what is read and written at once.
use crate::program::runs::owned;
use edge_io::{FixedClock, MemoryListener, ReadEdge, WriteEdge};
use group_program::{MemberEnd, MemoryMachine, Silent, Status, run_program};
use std::alloc::{AllocError, Global};
use std::io;
use std::io::{ErrorKind, Read, Write};
use std::sync::Wait;
use std::sync::atomic::{AtomicUsize, Ordering};
use std::test::Fail;
use std::thread::Threads;

/// What the client heard so far, and the most that was read, that was written, at once.
#[derive(Default, Drop)]
struct Heard {
    bytes: AtomicUsize,
    room: AtomicUsize,
    piece: AtomicUsize,
}

/// Says each text once it heard so many bytes, and waits before.
#[derive(Drop)]
struct Mouth<'t> {
    texts: &'t [(&'t [u8], usize)],
    next: usize,
    heard: &'t Heard,
}

impl Read for Mouth<'_> {
    fn read(&mut self, into: &mut [u8]) -> io::Result<usize> {
        self.heard.room.fetch_max(into.len(), Ordering::SeqCst);
        let Some(&(text, due)) = self.texts.get(self.next) else {
            return Ok(0);
        };
        if self.heard.bytes.load(Ordering::SeqCst) != due {
            return Err(ErrorKind::WouldBlock.into());
        }
        self.next = self.next.saturating_add(1);
        let most = text.len().min(into.len());
        into[..most].copy_from_slice(&text[..most]);
        Ok(most)
    }
}

#[derive(Drop)]
struct Ear<'t> {
    heard: &'t Heard,
}

impl Write for Ear<'_> {
    fn write(&mut self, piece: &[u8]) -> io::Result<usize> {
        self.heard.bytes.fetch_add(piece.len(), Ordering::SeqCst);
        self.heard.piece.fetch_max(piece.len(), Ordering::SeqCst);
        Ok(piece.len())
    }

    fn flush(&mut self) -> io::Result<()> {
        Ok(())
    }
}

fn serve<R: Threads + Wait + Sync>(
    rt: &R,
    alloc: Global,
    texts: &[(&[u8], usize)],
    heard: &Heard,
) -> Result<Status, AllocError> {
    let words = owned(alloc, &["session", "2", "0", "64", "4096"])?;
    let mut source = ReadEdge::new(Mouth {
        texts,
        next: 0,
        heard,
    });
    let mut sink = WriteEdge::new(Ear { heard });
    let mut listener = MemoryListener::new(alloc, Vec::new(alloc), &[])?;
    let clock = FixedClock::new(0);
    Ok(run_program(
        rt,
        alloc,
        &words,
        &mut source,
        &mut sink,
        &mut listener,
        &mut MemoryMachine::new(MemberEnd::Ended),
        &Silent,
        &clock,
    ))
}

#[test]
fn each_request_is_answered_before_more_is_read(rt: HostRuntime) -> Result<(), Fail> {
    let heard = Heard::default();
    let texts: [(&[u8], usize); 6] = [
        (b"set a 0 0 1\r\nA\r\n", 0),
        (b"get a\r\nget", 8),
        (b" b\r\n", 29),
        (b"set b 0 0 2\r\nB", 34),
        (b"C\r\nget a b\r\n", 34),
        (b"version\r\n", 80),
    ];
    let status = serve(&rt, rt.alloc(), &texts, &heard)?;
    assert_eq!(rt; status, Status::Done);
    assert_eq!(rt; heard.bytes.load(Ordering::SeqCst), 99);
    assert_eq!(rt; heard.room.load(Ordering::SeqCst), 65_536);
    Ok(())
}

#[test]
fn a_value_is_written_at_once(rt: HostRuntime) -> Result<(), Fail> {
    let value = "x".repeat(rt.alloc(), 70_000)?;
    let said = format!(in rt.alloc(); "set big 0 0 70000\r\n{value}\r\nget big\r\n")?;
    let heard = Heard::default();
    let (first, rest) = said.as_bytes().split_at(65_536);
    let texts = [(first, 0), (rest, 0)];
    let status = serve(&rt, rt.alloc(), &texts, &heard)?;
    assert_eq!(rt; status, Status::Done);
    assert_eq!(rt; heard.piece.load(Ordering::SeqCst), 70_021);
    Ok(())
}
