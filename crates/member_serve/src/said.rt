use crate::page::Page;

/// What came on a connection of an operator.
#[derive(Drop)]
pub(crate) enum Said {
    /// A line, without its end.
    Line(Vec<u8>),
    /// A request for a page.
    Request(Page),
}
