use crate::reply::Item;

/// What the table holds for a key: an item, and the second until which it is live, if there is one.
#[derive(Debug, Drop, PartialEq, Eq, Clone)]
pub struct Holding {
    pub item: Item,
    pub until: Option<u64>,
}
