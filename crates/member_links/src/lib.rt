//! The links of a member to the other members of its group, over TCP streams whose reads and writes do not wait. The contract says
//! that each call is safe and ends, whom a greeting names, and that a link that was up, broke or was cut never is awaited again.
//! Which bytes come of a stream and when is left to the system, and what a frame does to the member.
#![tactic(auto)]

mod accepting;
mod connecting;
mod door;
mod frames;
mod greeting;
mod heard;
mod link;
mod link_end;
mod link_event;
mod links;
mod newcomer;
mod pipe;
mod port;
mod refusing;
mod stage;
mod status;
mod tokens;
mod traffic;

pub use door::Door;
pub use greeting::{Greeting, process_of};
pub use link_end::LinkEnd;
pub use link_event::LinkEvent;
pub use links::MemberLinks;
pub use newcomer::{Greeted, Guest};
pub use port::{Arrival, Port};
pub use tokens::{FIRST_LINK, LINK_PORT, LinkTokens};
pub use traffic::Traffic;
