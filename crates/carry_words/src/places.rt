ghost use Rattle.std.specs.Prelude.{◌≡◌, None, Some, replicate, slice_set, option_copied, IfOk};
ghost use Rattle.carry_words.specs.Carrying.{are_free, is_free_place, place_at};

use crate::transfer::Transfer;
use std::alloc::{AllocError, Global};

/// So many places without an item.
pub(crate) fn empty_places(alloc: Global, count: usize) -> Result<Vec<Option<Transfer>>, AllocError>
    ensures { IfOk result (λ places. places.items ≡ replicate count None) }
{
    let mut places = Vec::with_capacity(alloc, count)?;
    'places: for _ in 0..count {
        places.push(None)?;
    }
    Ok(places)
}

/// The item at a place.
pub(crate) fn transfer_at(places: &[Option<Transfer>], at: usize) -> Option<&Transfer>
    ensures { option_copied result ≡ place_at at places.now }
{
    match places.get(at) {
        Some(Some(transfer)) => Some(transfer),
        _ => None,
    }
}

/// Whether there is such a place, and no item at it.
pub(crate) fn is_free(places: &[Option<Transfer>], at: usize) -> bool
    ensures { result ≡ is_free_place at places.now }
{
    at < places.len() && places[at].is_none()
}

/// Whether no place has an item.
pub(crate) fn are_free(places: &[Option<Transfer>]) -> bool
    ensures { result ≡ are_free places.now }
{
    places.iter().all(|place| place.is_none())
}

/// Puts an item at a place.
pub(crate) fn put(places: &mut Vec<Option<Transfer>>, at: usize, transfer: Transfer)
    ensures { places.new.items ≡ slice_set places.old.items at (Some transfer) }
{
    if let Some(place) = places.get_mut(at) {
        *place = Some(transfer);
    }
}

/// Takes the item at a place from there.
pub(crate) fn taken(places: &mut Vec<Option<Transfer>>, at: usize) -> Option<Transfer>
    ensures taken { result ≡ place_at at places.old.items }
    ensures left { places.new.items ≡ slice_set places.old.items at None }
{
    match places.get_mut(at) {
        Some(place) => place.take(),
        None => None,
    }
}
