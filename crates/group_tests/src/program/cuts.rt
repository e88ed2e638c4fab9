// A script that is cut after each of its bytes.
use crate::program::runs::play;
use group_program::Status;
use group_types::Field;
use std::alloc::{AllocError, Global};
use std::process::Abort;
use std::sync::Wait;
use std::thread::Threads;

// The script's lines by their numbers, and what is written for each.
const LINES: [(u64, &[u8], &[u8]); 10] = [
    (1, b"group 1 1 1 16", b""),
    (2, b"ask 0 d0 set a 0 01", b"ticket 1\n"),
    (3, b"ask 1 d0 set a 0 02", b"retry pending 0 1\n"),
    (4, b"ask 1 d0 get a", b"reply miss\n= 1.1 get a miss\n"),
    (5, b"collect 0 0 d0", b"not_yet\n"),
    (6, b"drain", b"= 0.0 set a 0 01 stored\ndrained 2\n"),
    (7, b"collect 0 0 d0", b"reply stored\n"),
    (8, b"collect 0 0 d0", b"stranger\n"),
    (9, b"deliver d0 p0", b"idle\n"),
    (10, b"ask 1 d0 set a 0 02", b"ticket 2\n"),
];

#[test]
fn a_cut_script_is_played_up_to_its_cut_line(rt: HostRuntime) {
    let mut script = Vec::new(rt.alloc());
    let mut written = Vec::new(rt.alloc());
    for (number, line, told) in LINES {
        for cut in 0..line.len() {
            plays_cut(&rt, rt.alloc(), (&script, &written), number, &line[..cut]);
        }
        script
            .extend_from_slice(line)
            .expect(&rt, "there is memory");
        written
            .extend_from_slice(told)
            .expect(&rt, "there is memory");
        plays(&rt, rt.alloc(), &script, Status::Done, &written);
        script.push(b'\n').expect(&rt, "there is memory");
    }
}

// What is played and written before a line of this number, and a front of that line.
fn plays_cut<R: Threads + Wait + Abort + Sync>(
    rt: &R,
    alloc: Global,
    before: (&[u8], &[u8]),
    number: u64,
    front: &[u8],
) {
    let status = end_of_cut(number, front);
    let text = joined(alloc, before.0, front).expect(rt, "there is memory");
    let last = last_line(alloc, status).expect(rt, "there is memory");
    let wanted = joined(alloc, before.1, last.as_bytes()).expect(rt, "there is memory");
    plays(rt, alloc, &text, status, &wanted);
}

// A script ends so, and this is written.
fn plays<R: Threads + Wait + Abort + Sync>(
    rt: &R,
    alloc: Global,
    script: &[u8],
    status: Status,
    written: &[u8],
) {
    let ended = play(rt, alloc, script, 7).expect(rt, "there is memory");
    assert_eq!(rt; ended.0, status, "a script of {script:?}");
    assert_eq!(rt; ended.1.as_slice(), written, "a script of {script:?}");
}

// How a script ends whose line of this number is cut to a front.
fn end_of_cut(number: u64, front: &[u8]) -> Status {
    match front {
        b"group 1 1 1 1" => Status::BadShape(Field::Block),
        b"" if 1 < number => Status::Done,
        _ => Status::BadLine(number),
    }
}

fn last_line(alloc: Global, status: Status) -> Result<String, AllocError> {
    match status {
        Status::BadLine(number) => format!(in alloc; "fault: line {number}\n"),
        Status::BadShape(_) => String::from_str(alloc, "fault: shape block\n"),
        _ => Ok(String::new(alloc)),
    }
}

fn joined(alloc: Global, front: &[u8], back: &[u8]) -> Result<Vec<u8>, AllocError> {
    let mut whole = Vec::from_slice(alloc, front)?;
    whole.extend_from_slice(back)?;
    Ok(whole)
}
