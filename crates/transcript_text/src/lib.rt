//! The lines of a transcript, read without taking memory: printed numbers and values, replies, answers, names of
//! calls, places and what processes show. Each call says yes exactly where the line is such a text, and what it tells.
//! Which lines a transcript must have is left to the crates above.
#![tactic(auto)]

pub mod answer;
pub mod count;
pub mod form;
pub mod kind;
pub mod name;
pub mod number;
pub mod place;
pub mod reply;
pub mod shown;
pub mod value;
pub mod word;

pub use answer::Said;
pub use form::Form;
pub use kind::Kind;
pub use name::Name;
pub use place::Place;
