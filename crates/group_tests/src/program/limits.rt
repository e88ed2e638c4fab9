// The longest values.
use crate::program::runs::{owned, run};
use group_program::Status;
use std::alloc::{AllocError, Global};
use std::test::Fail;

const WORDS: [&str; 5] = ["session", "1", "0", "16", "65536"];

// How long the value of a set is, what is asked then, and what is written.
const ROWS: [(usize, &str, &str); 3] = [
    (1_048_576, "version\r\n", "STORED\r\nVERSION cocytus-1\r\n"),
    (
        1_048_577,
        "version\r\n",
        "SERVER_ERROR object too large for cache\r\nVERSION cocytus-1\r\n",
    ),
    (
        1_048_576,
        "append v 0 0 1\r\nx\r\n",
        "STORED\r\nSERVER_ERROR object too large for cache\r\n",
    ),
];

// How many bytes a line of a script gives in digits, and how it ends.
const DIGITS: [(usize, Status); 2] = [(1_048_576, Status::Done), (1_048_577, Status::BadLine(2))];

#[test]
fn values_are_as_long_as_the_protocol_allows(rt: HostRuntime) -> Result<(), Fail> {
    let words = owned(rt.alloc(), &WORDS)?;
    for (len, then, written) in ROWS {
        let input = set_of(rt.alloc(), len, then)?;
        let told = run(&rt, rt.alloc(), &words, input.as_bytes(), 65_536)?;
        assert_eq!(rt; told.0, Status::Done, "{len}");
        assert_eq!(rt; told.1.as_slice(), written.as_bytes(), "{len}");
    }
    Ok(())
}

#[test]
fn digits_are_those_of_a_value_at_most(rt: HostRuntime) -> Result<(), Fail> {
    let words = owned(rt.alloc(), &["play"])?;
    for (len, status) in DIGITS {
        let script = digits_of(rt.alloc(), len)?;
        let told = run(&rt, rt.alloc(), &words, script.as_bytes(), 65_536)?;
        assert_eq!(rt; told.0, status, "{len}");
    }
    Ok(())
}

fn set_of(alloc: Global, len: usize, then: &str) -> Result<String, AllocError> {
    let data = "x".repeat(alloc, len)?;
    format!(in alloc; "set v 0 0 {len}\r\n{data}\r\n{then}")
}

fn digits_of(alloc: Global, len: usize) -> Result<String, AllocError> {
    let digits = "41".repeat(alloc, len)?;
    format!(in alloc; "group 1 0 16 65536\nask 0 d0 set v 0 {digits}\n")
}
