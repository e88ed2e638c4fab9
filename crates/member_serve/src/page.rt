use crate::place::place_of;
use httparse::Status;
use httparse::spans::{EMPTY_HEADER_SPAN, parse_request};
use memchr::memmem;

/// The most fields of a request's head.
const MOST_FIELDS: usize = 64;

/// What a program asks for by HTTP.
#[derive(Clone, Copy, Debug, PartialEq, Eq)]
pub(crate) enum Page {
    /// What the member counts, as Prometheus reads it.
    Metrics,
    /// Whether it serves clients.
    Health,
    /// A page that there isn't.
    Missing,
    /// A request that asks for no page.
    NoPage,
    /// What came is no request.
    Bad,
}

/// Whether the first line of a text is one of HTTP, and so no word of an operator.
pub(crate) fn is_request(text: &[u8]) -> bool {
    match place_of(b'\n', text) {
        Some(end) => memmem::find(&text[..end], b" HTTP/").is_some(),
        None => false,
    }
}

/// The page that a request asks for, once its whole head came.
pub(crate) fn page_of(text: &[u8]) -> Option<Page> {
    let mut fields = [EMPTY_HEADER_SPAN; MOST_FIELDS];
    match parse_request(text, &mut fields) {
        Ok(Status::Complete(head)) => Some(page_by(head.method.of(text), head.path.of(text))),
        Ok(Status::Partial) => None,
        Err(_) => Some(Page::Bad),
    }
}

/// The page that a method asks for at a path.
fn page_by(method: &[u8], path: &[u8]) -> Page {
    if method == b"GET".as_slice() {
        page_at(without_query(path))
    } else {
        Page::NoPage
    }
}

/// The page at a path.
fn page_at(path: &[u8]) -> Page {
    if path == b"/metrics".as_slice() {
        Page::Metrics
    } else if path == b"/health".as_slice() {
        Page::Health
    } else {
        Page::Missing
    }
}

/// A path up to its query.
fn without_query(path: &[u8]) -> &[u8] {
    match place_of(b'?', path) {
        Some(end) => &path[..end],
        None => path,
    }
}
