use crate::fault::{End, Fault};
use std::alloc::{AllocError, Global};
use std::rt::Files;
use std::str::Split;
use std::{fs, io};

/// A dialogue with the program.
#[derive(Drop)]
pub struct Dialogue {
    /// The words of the command line.
    pub words: Vec<String>,
    /// What is given on standard input.
    pub input: Vec<u8>,
    /// What must be written.
    pub output: Vec<u8>,
    /// The number of the status that it must end with.
    pub status: u8,
    /// The call that fails.
    pub fault: Option<Fault>,
    /// What the client of `serve` says, where there is one.
    pub client: Option<Vec<u8>>,
    /// What that client must be answered.
    pub answers: Vec<u8>,
}

impl Dialogue {
    /// The dialogue of a line: a name, a status, a fault or none, and words, one space apart. What is given and what
    /// must be written are the files `<name>.in` and `<name>.out`, and of `serve` what its client says and is answered
    /// `<name>.client` and `<name>.answers`.
    pub fn named<R: Files + AllocGlobal>(
        rt: &R,
        alloc: Global,
        line: &str,
    ) -> io::Result<Dialogue> {
        let mut words = line.split(' ');
        let name = words.next().unwrap_or("");
        let status = words
            .next()
            .and_then(|word| word.parse().ok())
            .unwrap_or(255);
        let mut words = owned(alloc, words)?;
        let fault = words.first().and_then(|word| Fault::named(word));
        if fault.is_some() {
            words.remove(0);
        }
        let (client, answers) = said(rt, alloc, name, &words)?;
        let input = file_of(rt, alloc, name, "in")?;
        let output = written(file_of(rt, alloc, name, "out")?, status, &fault)?;
        Ok(Dialogue {
            words,
            input,
            output,
            status,
            fault,
            client,
            answers,
        })
    }

    /// A command of one word over an input, of which nothing is said of what must be written.
    pub fn of_command(alloc: Global, word: &str, input: &str) -> Result<Dialogue, AllocError> {
        Ok(Dialogue {
            words: owned(alloc, word.split(' '))?,
            input: Vec::from_slice(alloc, input.as_bytes())?,
            output: Vec::new(alloc),
            status: 0,
            fault: None,
            client: None,
            answers: Vec::new(alloc),
        })
    }

    /// The number of the call that fails at this end: 0 where none does.
    pub fn failing(&self, end: End) -> u64 {
        self.fault.map_or(0, |fault| fault.at(end))
    }
}

/// What must be written where a call fails: a front of the output, and the last line of the status.
fn written(output: Vec<u8>, status: u8, fault: &Option<Fault>) -> Result<Vec<u8>, AllocError> {
    let mut written = output;
    if let Some(fault) = fault {
        written.truncate(fault.len);
        written.extend_from_slice(match status {
            6 => b"fault: read\n".as_slice(),
            8 => b"fault: accept\n".as_slice(),
            _ => b"".as_slice(),
        })?;
    }
    Ok(written)
}

/// What the client of a dialogue says and must be answered.
fn said<R: Files + AllocGlobal>(
    rt: &R,
    alloc: Global,
    name: &str,
    words: &[String],
) -> io::Result<(Option<Vec<u8>>, Vec<u8>)> {
    match words.first() {
        Some(word) if word.as_str() == "serve" && words.len() == 1 => {
            let client = file_of(rt, alloc, name, "client")?;
            Ok((Some(client), file_of(rt, alloc, name, "answers")?))
        }
        _ => Ok((None, Vec::new(alloc))),
    }
}

fn file_of<R: Files + AllocGlobal>(
    rt: &R,
    alloc: Global,
    name: &str,
    ending: &str,
) -> io::Result<Vec<u8>> {
    let path = format!(in alloc; "{name}.{ending}")?;
    fs::read(rt, path.as_str())
}

fn owned(alloc: Global, words: Split<'_, char>) -> Result<Vec<String>, AllocError> {
    let mut all = Vec::new(alloc);
    for word in words {
        all.push(String::from_str(alloc, word)?)?;
    }
    Ok(all)
}
