//! All that members of a group say to one another over a link, as bytes: the machine's messages, greetings, whom a member has cut,
//! pings, requests and answers, each with its CRC-32C behind it. The contract gives the bytes of each frame, and says that what a
//! reader gives of a stream is its whole frames. What a frame does is left to others.
#![tactic(auto)]

mod cut;
mod fits_act;
mod fits_number;
mod fits_told;
mod frame;
mod hello;
mod joining;
mod keeping;
pub mod laws;
mod put_act;
mod put_answer;
mod put_frame;
mod reader;
mod request;
mod signed;
mod take_act;
mod take_answer;
mod take_frame;
mod take_hello;
mod take_value;
mod told;
mod wish;
mod writing;

pub use frame::{Frame, NameSet};
pub use hello::{GroupId, Hello};
pub use keeping::{fits_link, has_link};
pub use reader::{LinkFault, LinkReader, Next};
pub use request::Request;
pub use told::Told;
pub use wish::Wish;
pub use writing::encode_into;
