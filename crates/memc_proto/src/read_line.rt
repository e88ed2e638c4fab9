ghost use Rattle.std.specs.Prelude.{◌≡◌, ℕ, ◌^◌, map, IfOk, Result};
ghost use Rattle.memc_proto.specs.Words.{GivesWord, key_words, number_word};
ghost use Rattle.memc_proto.specs.Line.{parsed_line, command_line, get_line, store_line, cas_line, delete_line, touch_line, count_line, fail_line, lone_line, sizes_of, store_of, delete_of, touch_of, counter_of, fail_of, whole, storing, skipping, refused};

use crate::command::{Command, command_named};
use crate::field::{
    Fault, read_exptime, read_keep, read_key, read_last, read_process, read_u32, read_u64, u32_of,
};
use crate::key_list::KeyList;
use crate::line::Line;
use crate::request::{Refusal, Request, Word};
use crate::store::{Store, Verb};
use crate::words::{without_return, words};
use memc_table::Act;
use memc_table::rule::LONGEST_VALUE;
use std::alloc::{AllocError, Global};

/// The numbers of a store's line.
#[derive(Clone, Copy)]
pub struct Sizes {
    pub flags: u32,
    pub expiry: i64,
    pub len: u32,
}

/// Reads a line without its end.
#[tactic(auto, unfolding(crate::specs::Line::parsed_line))]
pub(crate) fn read_line(alloc: Global, line: &[u8]) -> Result<Line, AllocError>
    ensures { IfOk result (λ read. read ≡ parsed_line line.now) }
{
    let words = words(alloc, without_return(line))?;
    match words.as_slice() {
        [] => Ok(refused(Refusal::Unknown)),
        [name, words @ ..] => match command_named(name) {
            Some(command) => read_command(alloc, command, words),
            None => Ok(refused(Refusal::Unknown)),
        },
    }
}

fn refused(refusal: Refusal) -> Line
    ensures { result ≡ refused refusal }
{
    Line::Whole(Request::Refused(refusal))
}

fn read_command(alloc: Global, command: Command, words: &[&[u8]]) -> Result<Line, AllocError>
    ensures { IfOk result (λ read. read ≡ command_line command (map (λ word. word.now) words.now)) }
{
    match command {
        Command::Get => read_get(alloc, false, words),
        Command::Gets => read_get(alloc, true, words),
        Command::Store(verb) => read_store(alloc, verb, words),
        Command::Cas => read_cas(alloc, words),
        Command::Delete => read_delete(alloc, words),
        Command::Touch => read_touch(alloc, words),
        Command::Incr => read_count(alloc, true, words),
        Command::Decr => read_count(alloc, false, words),
        Command::Version => Ok(lone(Request::Version, words)),
        Command::Quit => Ok(lone(Request::Quit, words)),
        Command::Fail => read_fail(words),
    }
}

fn lone(request: Request, words: &[&[u8]]) -> Line
    ensures { result ≡ lone_line request (map (λ word. word.now) words.now) }
{
    if words.is_empty() {
        Line::Whole(request)
    } else {
        refused(Refusal::Unknown)
    }
}

/// A line of no block, from what its words gave.
fn whole(request: Result<Request, Fault>) -> Result<Line, AllocError>
    ensures { (read : Result Request Word) → GivesWord request read → IfOk result (λ line. line ≡ whole read) }
{
    match request {
        Ok(request) => Ok(Line::Whole(request)),
        Err(Fault::Wrong(which)) => Ok(refused(Refusal::BadLine { which })),
        Err(Fault::Want) => Err(AllocError),
    }
}

fn read_get(alloc: Global, with_cas: bool, words: &[&[u8]]) -> Result<Line, AllocError>
    ensures { IfOk result (λ read. read ≡ get_line with_cas (map (λ word. word.now) words.now)) }
{
    if words.is_empty() {
        return Ok(refused(Refusal::Unknown));
    }
    match read_keys(alloc, words) {
        Ok(keys) => Ok(Line::Whole(Request::Get { keys, with_cas })),
        Err(Fault::Wrong(which)) => Ok(refused(Refusal::BadLine { which })),
        Err(Fault::Want) => Err(AllocError),
    }
}

fn read_keys(alloc: Global, words: &[&[u8]]) -> Result<KeyList, Fault>
    ensures { GivesWord result (key_words (map (λ word. word.now) words.now)) }
{
    let mut keys = Vec::with_capacity(alloc, words.len())?;
    'words: for word in words {
        keys.push(read_key(alloc, word)?)?;
    }
    Ok(KeyList::from(keys))
}

fn read_store(alloc: Global, verb: Verb, words: &[&[u8]]) -> Result<Line, AllocError>
    ensures { IfOk result (λ read. read ≡ store_line verb (map (λ word. word.now) words.now)) }
{
    match words {
        [key, flags, exptime, bytes, last @ ..] if last.len() <= 1 => {
            let sizes = read_sizes(flags, exptime, bytes);
            storing(bytes, store(alloc, verb, key, sizes, Ok(0), last))
        }
        _ => Ok(refused(Refusal::Unknown)),
    }
}

fn read_cas(alloc: Global, words: &[&[u8]]) -> Result<Line, AllocError>
    ensures { IfOk result (λ read. read ≡ cas_line (map (λ word. word.now) words.now)) }
{
    match words {
        [key, flags, exptime, bytes, unique, last @ ..] if last.len() <= 1 => {
            let sizes = read_sizes(flags, exptime, bytes);
            let cas = read_u64(Word::CasUnique, unique);
            storing(bytes, store(alloc, Verb::Cas, key, sizes, cas, last))
        }
        _ => Ok(refused(Refusal::Unknown)),
    }
}

#[tactic(auto, unfolding(crate::specs::Line::sizes_of))]
fn read_sizes(flags: &[u8], exptime: &[u8], bytes: &[u8]) -> Result<Sizes, Fault>
    ensures { GivesWord result (sizes_of flags.now exptime.now bytes.now) }
{
    Ok(Sizes {
        flags: read_u32(Word::Flags, flags)?,
        expiry: read_exptime(exptime)?,
        len: read_u32(Word::Bytes, bytes)?,
    })
}

/// A store of its words, which are judged in order.
#[tactic(auto, unfolding(crate::specs::Line::store_of))]
fn store(
    alloc: Global,
    verb: Verb,
    key: &[u8],
    sizes: Result<Sizes, Fault>,
    cas: Result<u64, Fault>,
    last: &[&[u8]],
) -> Result<Store, Fault>
    ensures { (read_sizes : Result Sizes Word) → (read_cas : Result ℕ Word) → GivesWord sizes read_sizes → GivesWord cas read_cas → GivesWord result (store_of verb key.now read_sizes read_cas (map (λ word. word.now) last.now)) }
{
    let key = read_key(alloc, key)?;
    let sizes = sizes?;
    let cas = cas?;
    let noreply = read_last(last)?;
    Ok(Store {
        verb,
        key,
        flags: sizes.flags,
        expiry: sizes.expiry,
        len: sizes.len,
        cas,
        noreply,
    })
}

/// A line with a data block of so many bytes, from what its words gave.
fn storing(bytes: &[u8], store: Result<Store, Fault>) -> Result<Line, AllocError>
    ensures { (read : Result Store Word) → GivesWord store read → IfOk result (λ line. line ≡ storing (number_word Word.Bytes (2 ^ 32) bytes.now) read) }
{
    match store {
        Ok(store) if store.len as usize <= LONGEST_VALUE => Ok(Line::Stores(store)),
        Ok(store) => Ok(skipping(Refusal::TooLarge { len: store.len }, bytes)),
        Err(Fault::Wrong(which)) => Ok(skipping(Refusal::BadLine { which }, bytes)),
        Err(Fault::Want) => Err(AllocError),
    }
}

/// A refused line with a data block of so many bytes.
#[tactic(auto, unfolding(crate::specs::Words::number_word))]
fn skipping(refusal: Refusal, bytes: &[u8]) -> Line
    ensures { result ≡ skipping refusal (number_word Word.Bytes (2 ^ 32) bytes.now) }
{
    match u32_of(bytes) {
        Some(len) => Line::Skips {
            refusal,
            len: u64::from(len) + 2,
        },
        None => refused(refusal),
    }
}

fn read_delete(alloc: Global, words: &[&[u8]]) -> Result<Line, AllocError>
    ensures { IfOk result (λ read. read ≡ delete_line (map (λ word. word.now) words.now)) }
{
    match words {
        [key, last @ ..] if last.len() <= 1 => whole(delete(alloc, key, last)),
        _ => Ok(refused(Refusal::Unknown)),
    }
}

#[tactic(auto, unfolding(crate::specs::Line::delete_of))]
fn delete(alloc: Global, key: &[u8], last: &[&[u8]]) -> Result<Request, Fault>
    ensures { GivesWord result (delete_of key.now (map (λ word. word.now) last.now)) }
{
    let key = read_key(alloc, key)?;
    let noreply = read_last(last)?;
    Ok(Request::Change {
        act: Act::Delete { key },
        noreply,
    })
}

fn read_touch(alloc: Global, words: &[&[u8]]) -> Result<Line, AllocError>
    ensures { IfOk result (λ read. read ≡ touch_line (map (λ word. word.now) words.now)) }
{
    match words {
        [key, exptime, last @ ..] if last.len() <= 1 => whole(touch(alloc, key, exptime, last)),
        _ => Ok(refused(Refusal::Unknown)),
    }
}

#[tactic(auto, unfolding(crate::specs::Line::touch_of))]
fn touch(alloc: Global, key: &[u8], exptime: &[u8], last: &[&[u8]]) -> Result<Request, Fault>
    ensures { GivesWord result (touch_of key.now exptime.now (map (λ word. word.now) last.now)) }
{
    let key = read_key(alloc, key)?;
    let expiry = read_exptime(exptime)?;
    let noreply = read_last(last)?;
    Ok(Request::Change {
        act: Act::Touch { key, expiry },
        noreply,
    })
}

fn read_count(alloc: Global, up: bool, words: &[&[u8]]) -> Result<Line, AllocError>
    ensures { IfOk result (λ read. read ≡ count_line up (map (λ word. word.now) words.now)) }
{
    match words {
        [key, number, last @ ..] if last.len() <= 1 => whole(count(alloc, up, key, number, last)),
        _ => Ok(refused(Refusal::Unknown)),
    }
}

#[tactic(auto, unfolding(crate::specs::Line::counter_of))]
fn count(
    alloc: Global,
    up: bool,
    key: &[u8],
    number: &[u8],
    last: &[&[u8]],
) -> Result<Request, Fault>
    ensures { GivesWord result (counter_of up key.now number.now (map (λ word. word.now) last.now)) }
{
    let key = read_key(alloc, key)?;
    let by = read_u64(Word::Number, number)?;
    let noreply = read_last(last)?;
    let act = if up {
        Act::Incr { key, by }
    } else {
        Act::Decr { key, by }
    };
    Ok(Request::Change { act, noreply })
}

fn read_fail(words: &[&[u8]]) -> Result<Line, AllocError>
    ensures { IfOk result (λ read. read ≡ fail_line (map (λ word. word.now) words.now)) }
{
    match words {
        [process, keep] => whole(fail(process, keep)),
        _ => Ok(refused(Refusal::Unknown)),
    }
}

#[tactic(auto, unfolding(crate::specs::Line::fail_of))]
fn fail(process: &[u8], keep: &[u8]) -> Result<Request, Fault>
    ensures { GivesWord result (fail_of process.now keep.now) }
{
    Ok(Request::Fail {
        at: read_process(process)?,
        keep: read_keep(keep)?,
    })
}
