ghost use Rattle.std.specs.Prelude.{◌≤◌, All};

use crate::dialogue::Dialogue;
use crate::fault::End;
use edge_io::{FixedClock, MemoryListener, MemorySink, MemorySource};
use group_program::{MemberEnd, MemoryMachine, Silent, run_program};
use std::alloc::{AllocError, Global};
use std::sync::Wait;
use std::thread::Threads;

/// How many bytes a read gives at most: a byte, a few, or all that are asked for.
const PIECES: [usize; 3] = [1, 7, 65_536];

/// `ok`, or where what is written first differs in pieces of some size.
pub fn told<R: Threads + Wait + Sync>(
    rt: &R,
    alloc: Global,
    dialogue: &Dialogue,
) -> Result<String, AllocError> {
    let own = dialogue.fault.map_or(0, |fault| fault.piece);
    if 0 < own {
        return told_in(rt, alloc, dialogue, own);
    }
    for &piece in sizes(&dialogue.input) {
        let text = told_in(rt, alloc, dialogue, piece)?;
        if text.as_str() != "ok" {
            return Ok(text);
        }
    }
    String::from_str(alloc, "ok")
}

// The sizes of pieces that an input is given in: where it has no bytes all are the same.
fn sizes(input: &[u8]) -> &[usize]
    ensures { All (λ piece. 1 ≤ piece) result.now }
{
    if input.is_empty() {
        &PIECES[..1]
    } else {
        &PIECES
    }
}

// The same in pieces of one size.
fn told_in<R: Threads + Wait + Sync>(
    rt: &R,
    alloc: Global,
    dialogue: &Dialogue,
    piece: usize,
) -> Result<String, AllocError>
    requires { 1 ≤ piece }
{
    let (status, written, answers) = played(rt, alloc, dialogue, piece)?;
    if answers != dialogue.answers {
        let at = same(&answers, &dialogue.answers);
        return format!(in alloc;
            "in pieces of {piece}: its client is answered otherwise at byte {at}"
        );
    }
    if written != dialogue.output {
        let at = same(&written, &dialogue.output);
        return format!(in alloc; "in pieces of {piece}: differs at byte {at}");
    }
    if status != dialogue.status {
        return format!(in alloc; "in pieces of {piece}: ends with {status}");
    }
    String::from_str(alloc, "ok")
}

/// The status that the program ends with, and what it writes, where a read gives all that is asked for.
pub fn played_whole<R: Threads + Wait + Sync>(
    rt: &R,
    alloc: Global,
    dialogue: &Dialogue,
) -> Result<(u8, Vec<u8>), AllocError> {
    let (status, written, _) = played(rt, alloc, dialogue, 65_536)?;
    Ok((status, written))
}

// The status that the program ends with, what it writes, and what its client is answered.
fn played<R: Threads + Wait + Sync>(
    rt: &R,
    alloc: Global,
    dialogue: &Dialogue,
    piece: usize,
) -> Result<(u8, Vec<u8>, Vec<u8>), AllocError>
    requires { 1 ≤ piece }
{
    let mut source = MemorySource::new(
        alloc,
        &dialogue.input,
        &[dialogue.failing(End::Read)],
    )?.with_piece(piece);
    let mut sink = MemorySink::new(alloc, &[dialogue.failing(End::Write)])?;
    let mut listener = listener(alloc, dialogue)?;
    let status = run_program(
        rt,
        alloc,
        &dialogue.words,
        &mut source,
        &mut sink,
        &mut listener,
        &mut MemoryMachine::new(MemberEnd::Ended),
        &Silent,
        &FixedClock::new(0),
    );
    let written = Vec::from_slice(alloc, sink.bytes())?;
    Ok((status.number(), written, listener.held(alloc, 1)?))
}

// A listener to which the client of a dialogue comes, where there is one.
fn listener(alloc: Global, dialogue: &Dialogue) -> Result<MemoryListener, AllocError> {
    let mut clients = Vec::new(alloc);
    if let Some(bytes) = &dialogue.client {
        clients.push(Vec::from_slice(alloc, bytes)?)?;
    }
    MemoryListener::new(alloc, clients, &[dialogue.failing(End::Accept)])
}

// How many bytes are the same at the start.
fn same(written: &[u8], output: &[u8]) -> usize {
    written
        .iter()
        .zip(output)
        .take_while(|(one, other)| one == other)
        .count()
}
