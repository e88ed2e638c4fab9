use crate::losses::{Losses, bit_of};
use crate::notice::Notice;
use group_types::{ProcessId, Shape};

/// Tells a person of each process that was lost since these were told of, as bits. Returns those that are told of now.
pub(crate) fn tell_losses<N: Notice>(shape: Shape, losses: &Losses, told: u64, notice: &N) -> u64 {
    let lost = losses.lost();
    if lost == told {
        return told;
    }
    let mut count = u64::from(told.count_ones());
    'places: for place in 0..shape.k().saturating_add(shape.m()) {
        let bit = bit_of(place);
        if lost & bit != told & bit {
            count = count.saturating_add(1);
            notice.lose(process_of(shape, place), count, shape.m());
        }
    }
    lost
}

/// The process at a place, those of data first.
fn process_of(shape: Shape, place: u32) -> ProcessId {
    if place < shape.k() {
        ProcessId::DataNode(place)
    } else {
        ProcessId::ParityNode(place.saturating_sub(shape.k()))
    }
}
