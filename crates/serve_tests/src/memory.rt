// A listener in memory with connections.
use edge_io::{Failed, Listener, MemoryListener, Sink, Source};
use std::alloc::{AllocError, Global};
use std::fmt::Debug;
use std::process::Abort;

/// Stops where what is found isn't what is wanted.
pub(crate) fn same<T: Copy + PartialEq + Debug>(rt: &impl Abort, found: T, wanted: T) {
    assert_eq!(rt; found, wanted);
}

/// A listener with a connection for each of these texts, which fails at these numbers.
pub(crate) fn listener(
    rt: &impl Abort,
    alloc: Global,
    said: &[&[u8]],
    failing: &[u64],
) -> MemoryListener {
    let connections = texts(alloc, said).expect(rt, "connections");
    MemoryListener::new(alloc, connections, failing).expect(rt, "a listener")
}

fn texts(alloc: Global, said: &[&[u8]]) -> Result<Vec<Vec<u8>>, AllocError> {
    let mut texts = Vec::new(alloc);
    for bytes in said {
        texts.push(Vec::from_slice(alloc, bytes)?)?;
    }
    Ok(texts)
}

/// A connection was answered this.
pub(crate) fn hears(
    rt: &impl Abort,
    alloc: Global,
    listener: &MemoryListener,
    connection: u64,
    answers: &[u8],
) {
    let held = listener.held(alloc, connection).expect(rt, "what is held");
    assert_eq!(rt; held.as_slice(), answers, "on connection {connection}");
}

// The next connection says this, and is answered with it.
fn echoes(rt: &impl Abort, listener: &mut MemoryListener, said: &[u8]) {
    let Ok(Some((mut source, mut sink))) = listener.accept() else {
        panic!(rt; "no connection");
    };
    let mut into = [0; 10];
    assert_eq!(rt; source.read(&mut into), Ok(said.len()));
    same(rt, &into[..said.len()], said);
    same(rt, source.read(&mut into), Ok(0));
    same(
        rt,
        (sink.write(b"seen "), sink.write(said)),
        (Ok(5), Ok(said.len())),
    );
}

// Whether a connection comes.
fn comes(listener: &mut MemoryListener) -> Result<bool, Failed> {
    Ok(listener.accept()?.is_some())
}

#[test]
fn hands_out_its_connections_in_order(rt: HostRuntime) {
    let mut listener = listener(&rt, rt.alloc(), &[b"abc", b"", b"xy"], &[]);
    same(&rt, listener.listen("here"), Ok(()));
    for (connection, said, seen) in [
        (1, b"abc".as_slice(), b"seen abc".as_slice()),
        (2, b"", b"seen "),
        (3, b"xy", b"seen xy"),
    ] {
        echoes(&rt, &mut listener, said);
        hears(&rt, rt.alloc(), &listener, connection, seen);
    }
    same(
        &rt,
        (comes(&mut listener), comes(&mut listener)),
        (Ok(false), Ok(false)),
    );
    for connection in [0, 4, u64::MAX] {
        hears(&rt, rt.alloc(), &listener, connection, b"");
    }
}

#[test]
fn fails_by_number_and_keeps_its_connections(rt: HostRuntime) {
    let said = [b"abc".as_slice(), b"", b"xy"];
    let mut listener = listener(&rt, rt.alloc(), &said, &[1, 3, 4, 6]);
    same(
        &rt,
        (listener.listen("here"), listener.listen("here")),
        (Err(Failed), Ok(())),
    );
    for end in [
        Err(Failed),
        Err(Failed),
        Ok(true),
        Err(Failed),
        Ok(true),
        Ok(true),
        Ok(false),
    ] {
        same(&rt, comes(&mut listener), end);
    }
}
