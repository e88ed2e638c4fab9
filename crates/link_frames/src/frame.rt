use crate::hello::Hello;
use crate::request::Request;
use crate::told::Told;
use group_message::Message;

/// Some processes of a group: bit `x` is that of the process at index `x`, the data processes first.
#[derive(Clone, Copy, Debug, PartialEq, Eq)]
pub struct NameSet(pub u32);

/// What a link carries. Of the machine's messages a notice of a death is none that travels.
#[derive(Debug, Drop)]
pub enum Frame {
    Message(Message),
    Hello(Hello),
    /// Whom its sender has cut.
    Said(NameSet),
    /// How many pings were sent before.
    Ping(u64),
    /// The ping that is answered.
    Pong(u64),
    Request(Request),
    Told(Told),
}
