/// What happens to a group, by kinds. An ask is one of three, by its act: a get reads, a delete and a touch alter an item
/// and bring no value, and every other act may store a value.
#[derive(Clone, Copy, Debug, PartialEq, Eq)]
pub enum Kind {
    Read,
    Alter,
    Store,
    Collect,
    Deliver,
    Fail,
    Flush,
    Trace,
}
