//! The pages of a space: a finite map from block numbers to blocks of bytes, of which only those
//! that were made take memory. Each contract says what every look-up finds afterwards, and which
//! byte stands at an address, where a page that isn't there reads as zeros. What the bytes mean is
//! left to the spaces.
#![tactic(auto)]

mod bytes;
pub mod page;
pub mod pages;
mod reserve;

pub use page::Page;
pub use pages::Pages;
