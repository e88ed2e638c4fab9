use crate::json::{number_at, value_of};
use httparse::Status;
use httparse::spans::{EMPTY_HEADER_SPAN, parse_response};
use std::alloc::Global;

/// The most fields of an answer's head.
const MOST_FIELDS: usize = 64;

/// What etcd answered on a connection that ended.
#[derive(Clone, Copy, Debug)]
pub enum Answer<'a> {
    /// It did as it was asked, and says this.
    Done(&'a [u8]),
    /// It refused.
    Refused,
    /// What came is no answer.
    None,
}

/// What etcd answered on a connection on which this came.
pub fn answer_of(text: &[u8]) -> Answer<'_> {
    let mut fields = [EMPTY_HEADER_SPAN; MOST_FIELDS];
    match parse_response(text, &mut fields) {
        Ok(Status::Complete(head)) if head.code == 200 => Answer::Done(&text[head.len..]),
        Ok(Status::Complete(_)) => Answer::Refused,
        _ => Answer::None,
    }
}

/// The lease that was granted.
pub fn lease_in(alloc: Global, body: &[u8]) -> Option<u64> {
    let value = value_of(alloc, body)?;
    number_at(&value, "ID")
}

/// For how many seconds a lease that was renewed lasts: 0 where it had ended.
pub fn seconds_in(alloc: Global, body: &[u8]) -> Option<u64> {
    let value = value_of(alloc, body)?;
    let result = value.get("result")?;
    let _lease = number_at(result, "ID")?;
    Some(number_at(result, "TTL").unwrap_or(0))
}

/// Whether a transaction was done.
pub fn was_done(alloc: Global, body: &[u8]) -> Option<bool> {
    let value = value_of(alloc, body)?;
    let _header = value.get("header")?;
    match value.get("succeeded") {
        Some(done) => done.as_bool(),
        None => Some(false),
    }
}
