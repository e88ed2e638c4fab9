//! The space of a data process: the bytes of its values at their addresses, kept in pages. The
//! contract sees the whole list of bytes, to which `apply` adds a difference, and which pages were
//! made; which runs are taken is left to the process.
#![tactic(auto)]

mod space;

pub use space::ValueSpace;
