use crate::holding::Holding;
use crate::reply::Reply;

/// What the table makes of an op: it refuses it and stays as it is, or it accepts it as the next
/// update of the key's partition, after which the key has the item that the update leaves.
#[derive(Debug, Drop, PartialEq, Eq)]
pub enum Ruling {
    Refused(Reply),
    Accepted {
        reply: Reply,
        leaves: Option<Holding>,
    },
}
