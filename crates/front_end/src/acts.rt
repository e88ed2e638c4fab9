ghost use Rattle.std.specs.Prelude.{◌≡◌, ◌++◌, ◌∷◌, ℕ, List, [], IfOk, false, true};
ghost use Rattle.std.specs.Prelude.{length, nat_eq, option_copied, slice_get, take};
ghost use Rattle.std.specs.Cmp.Lexicographic.{pointwise};
ghost use Rattle.std.specs.List.{list_any};
ghost use Rattle.std.specs.Option.{option_map};
ghost use Rattle.memc_table.specs.Act.{key_of};
ghost use Rattle.memc_proto.specs.declared.request.Request.{Request};
ghost use Rattle.memc_proto.specs.declared.request.Request.TheVariants as request;
ghost use Rattle.front_end.specs.Ahead.{HasNeed, acts_ahead, acts_of};
ghost use Rattle.front_end.specs.Progress.{behind, waiting_behind};

use crate::due::{copy_of, get_of};
use crate::keys::keys_behind;
use crate::overlap::Need;
use group_types::Key;
use memc_proto::Request;
use memc_table::Act;
use std::alloc::AllocError;

/// What a request needs next of which so many keys are answered.
pub(crate) fn need_at(request: &Request, answered: usize) -> Need
    ensures { HasNeed (behind answered request.now ∷ []) result }
{
    match request {
        Request::Get { keys, .. } => {
            if keys_behind(keys.keys(), answered).is_empty() {
                Need::Text
            } else {
                Need::Call
            }
        }
        Request::Change { .. } => Need::Call,
        Request::Fail { .. } => Need::Order,
        Request::Version => Need::Text,
        Request::Quit => Need::Text,
        Request::Refused(_) => Need::Text,
    }
}

/// How many acts a request asks of which so many keys are answered.
pub(crate) fn count_acts(request: &Request, answered: usize) -> usize
    ensures { result ≡ length (acts_of (behind answered request.now)) }
{
    match request {
        Request::Get { keys, .. } => keys_behind(keys.keys(), answered).len(),
        Request::Change { .. } => 1,
        _ => 0,
    }
}

/// The act of this number that requests ask, of the first of which so many keys are answered.
pub(crate) fn act_ahead(
    requests: &[Request],
    answered: usize,
    number: usize,
) -> Result<Option<Act>, AllocError>
    ensures { IfOk result (λ found. found ≡ slice_get (acts_ahead (waiting_behind answered requests.now)) number) }
{
    let mut keys = answered;
    let mut left = number;
    'requests: for request in requests {
        if is_order(request) {
            return Ok(None);
        }
        let count = count_acts(request, keys);
        if left < count {
            return act_of(request, keys, left);
        }
        left -= count;
        keys = 0;
    }
    Ok(None)
}

/// The key that the act of this number asks, of requests of the first of which so many keys are answered.
pub(crate) fn key_ahead(requests: &[Request], answered: usize, number: usize) -> Option<&Key>
    ensures { option_copied result
        ≡ option_map key_of (slice_get (acts_ahead (waiting_behind answered requests.now)) number) }
{
    let mut keys = answered;
    let mut left = number;
    'requests: for request in requests {
        if is_order(request) {
            return None;
        }
        let count = count_acts(request, keys);
        if left < count {
            return key_of(request, keys, left);
        }
        left -= count;
        keys = 0;
    }
    None
}

/// Whether one of the first so many acts that requests ask, of the first of which so many keys are answered, asks this key.
pub(crate) fn asks_ahead(requests: &[Request], answered: usize, count: usize, key: &Key) -> bool
    ensures { result ≡ list_any (λ act. pointwise nat_eq (key_of act) key.now)
        (take count (acts_ahead (waiting_behind answered requests.now))) }
{
    let mut keys = answered;
    let mut left = count;
    'requests: for request in requests {
        if is_order(request) {
            return false;
        }
        if asks(request, keys, left, key) {
            return true;
        }
        left -= count_acts(request, keys).min(left);
        keys = 0;
    }
    false
}

/// Whether a request is the order that a process fail.
fn is_order(request: &Request) -> bool
    ensures order { result ≡ true → (k : ℕ) (others : List Request) → acts_ahead (behind k request.now ∷ others) ≡ [] }
    ensures other { result ≡ false → (k : ℕ) (others : List Request)
        → acts_ahead (behind k request.now ∷ others) ≡ acts_of (behind k request.now) ++ acts_ahead others }
{
    matches!(request, Request::Fail { .. })
}

/// The act of this number that a request asks of which so many keys are answered.
fn act_of(request: &Request, answered: usize, number: usize) -> Result<Option<Act>, AllocError>
    ensures { IfOk result (λ found. found ≡ slice_get (acts_of (behind answered request.now)) number) }
{
    match request {
        Request::Get { keys, .. } => act_of_keys(keys_behind(keys.keys(), answered), number),
        Request::Change { act, .. } => {
            if number == 0 {
                Ok(Some(copy_of(act)?))
            } else {
                Ok(None)
            }
        }
        _ => Ok(None),
    }
}

/// The key that the act of this number asks, of a request of which so many keys are answered.
fn key_of(request: &Request, answered: usize, number: usize) -> Option<&Key>
    ensures { option_copied result ≡ option_map key_of (slice_get (acts_of (behind answered request.now)) number) }
{
    match request {
        Request::Get { keys, .. } => keys_behind(keys.keys(), answered).get(number),
        Request::Change { act, .. } => { if number == 0 { Some(act.key()) } else { None } }
        _ => None,
    }
}

/// The get of the key of this number.
fn act_of_keys(keys: &[Key], number: usize) -> Result<Option<Act>, AllocError>
    ensures { IfOk result (λ found. found ≡ slice_get (acts_of (request.Get keys.now false)) number) }
{
    let Some(key) = keys.get(number) else {
        return Ok(None);
    };
    Ok(Some(get_of(key)?))
}

/// Whether one of the first so many acts of a request, of which so many keys are answered, asks this key.
fn asks(request: &Request, answered: usize, count: usize, key: &Key) -> bool
    ensures { result ≡ list_any (λ act. pointwise nat_eq (key_of act) key.now)
        (take count (acts_of (behind answered request.now))) }
{
    match request {
        Request::Get { keys, .. } => {
            let left = keys_behind(keys.keys(), answered);
            left[..count.min(left.len())].contains(key)
        }
        Request::Change { act, .. } => count > 0 && act.key() == key,
        _ => false,
    }
}
