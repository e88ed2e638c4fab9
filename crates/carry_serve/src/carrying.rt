use crate::group::Group;
use crate::lane::Lane;
use crate::places::Places;
use crate::talk::Talk;
use carry_words::Carry;
use group_config::CarrySettings;
use mio::{Events, Poll};
use std::alloc::Global;

/// The list of the items of a partition, as its head tells it.
#[derive(Drop)]
pub(crate) struct Page {
    /// The connection on which it is told.
    pub(crate) talk: Talk,
    /// Whether it was read to its end.
    pub(crate) is_over: bool,
}

/// A carry under way.
#[derive(Drop)]
pub(crate) struct Carrying<'a, R, W> {
    pub(crate) alloc: Global,
    pub(crate) rt: &'a R,
    pub(crate) report: &'a W,
    pub(crate) settings: &'a CarrySettings,
    pub(crate) poll: Poll,
    pub(crate) events: Events,
    pub(crate) old: Group<'a>,
    pub(crate) new: Group<'a>,
    pub(crate) carry: Carry,
    pub(crate) places: Places,
    pub(crate) lanes: Vec<Lane>,
    pub(crate) pages: Vec<Page>,
    // How many items were listed, how many of them have no end, and how many bytes the values that were carried have.
    pub(crate) listed: u64,
    pub(crate) lasting: u64,
    pub(crate) bytes: u64,
    // What was refused last, and whether there is no room for an item.
    pub(crate) refusal: String,
    pub(crate) is_full: bool,
    // How late it is: in milliseconds since some start, and in seconds since 1970.
    pub(crate) now: u64,
    pub(crate) moment: u64,
    // When an item went on last, and when it was told last how the carry goes on.
    pub(crate) moved: u64,
    pub(crate) told: u64,
    // The token of the next connection to a control address.
    pub(crate) next_token: usize,
}
