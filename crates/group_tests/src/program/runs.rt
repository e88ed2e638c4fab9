// Whole runs of the program: what is written, and how it ends.
ghost use Rattle.std.specs.Prelude.{◌≤◌};

use edge_io::{Clock, FixedClock, MemoryListener, MemorySink, MemorySource};
use group_program::{MemberEnd, MemoryMachine, Silent, Status, run_program};
use std::alloc::{AllocError, Global};
use std::sync::Wait;
use std::test::Fail;
use std::thread::Threads;

/// How a run ended, and what was written.
pub(crate) type Told = (Status, Vec<u8>);

pub(crate) fn owned(alloc: Global, words: &[&str]) -> Result<Vec<String>, AllocError> {
    let mut all = Vec::new(alloc);
    for word in words {
        all.push(String::from_str(alloc, word)?)?;
    }
    Ok(all)
}

// Runs the words on a script in pieces of this size.
pub(crate) fn run<R: Threads + Wait + Sync>(
    rt: &R,
    alloc: Global,
    words: &[String],
    script: &[u8],
    piece: usize,
) -> Result<Told, AllocError>
    requires { 1 ≤ piece }
{
    let mut source = MemorySource::new(alloc, script, &[])?.with_piece(piece);
    let mut sink = MemorySink::new(alloc, &[])?;
    let status = run_over(
        rt,
        alloc,
        words,
        &mut source,
        &mut sink,
        &FixedClock::new(0),
    )?;
    Ok((status, Vec::from_slice(alloc, sink.bytes())?))
}

/// What the words write at the moments of a clock.
pub(crate) fn run_at<R: Threads + Wait + Sync, T: Clock>(
    rt: &R,
    alloc: Global,
    words: &[String],
    input: &[u8],
    clock: &T,
) -> Result<Vec<u8>, AllocError> {
    let mut source = MemorySource::new(alloc, input, &[])?;
    let mut sink = MemorySink::new(alloc, &[])?;
    run_over(rt, alloc, words, &mut source, &mut sink, clock)?;
    Vec::from_slice(alloc, sink.bytes())
}

fn run_over<R: Threads + Wait + Sync, T: Clock>(
    rt: &R,
    alloc: Global,
    words: &[String],
    source: &mut MemorySource,
    sink: &mut MemorySink,
    clock: &T,
) -> Result<Status, AllocError> {
    let mut listener = MemoryListener::new(alloc, Vec::new(alloc), &[])?;
    Ok(run_program(
        rt,
        alloc,
        words,
        source,
        sink,
        &mut listener,
        &mut MemoryMachine::new(MemberEnd::Ended),
        &Silent,
        clock,
    ))
}

// Plays a script.
pub(crate) fn play<R: Threads + Wait + Sync>(
    rt: &R,
    alloc: Global,
    script: &[u8],
    piece: usize,
) -> Result<Told, AllocError>
    requires { 1 ≤ piece }
{
    let words = owned(alloc, &["play"])?;
    run(rt, alloc, &words, script, piece)
}

#[test]
fn plays_at_most_its_limit(rt: HostRuntime) -> Result<(), Fail> {
    let mut script = Vec::from_slice(rt.alloc(), b"group 1 0 1 16\n")?;
    script.resize(16_777_216, b'#')?;
    let told = play(&rt, rt.alloc(), &script, 65_536)?;
    assert_eq!(rt; told.0, Status::Done);
    script.push(b'\n')?;
    let told = play(&rt, rt.alloc(), &script, 65_536)?;
    assert_eq!(rt; (told.0, told.0.number()), (Status::TooLong, 4));
    assert_eq!(rt; told.1.as_slice(), b"fault: length\n".as_slice());
    Ok(())
}
