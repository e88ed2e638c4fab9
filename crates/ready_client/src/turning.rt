use front_end::Overlap;
use std::alloc::Global;

/// What every step of a turn goes by: where memory is taken, which calls may be under way together, and the clock.
#[derive(Drop)]
pub(crate) struct Turning<'t, T> {
    pub(crate) alloc: Global,
    pub(crate) overlap: Overlap,
    pub(crate) clock: &'t T,
}
