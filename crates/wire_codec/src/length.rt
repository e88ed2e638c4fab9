ghost use Rattle.std.specs.Prelude.{◌≡◌, ◌≤◌, ◌<◌, ◌+◌, ◌*◌, length, IfSome, IfNone};
ghost use Rattle.std.specs.List.{flat_map};
ghost use Rattle.wire_codec.specs.Fits.{most};
ghost use Rattle.wire_codec.specs.Frame as spec;
ghost use Rattle.wire_codec.specs.Frame.{eight, frame_body, maybe, run, update};

use crate::cut::MOST;
use group_message::{Body, Message, Outcome, Update};
use group_types::Run;

/// How many bytes stand behind the length in a message's frame, if they are no more than a frame may have.
#[tactic(auto, using(crate::proofs::Puts::length_row))]
pub(crate) fn text_length(message: &Message) -> Option<u32>
    ensures some { IfSome result (λ n. (n ≡ length (frame_body message.now)) × (n ≤ most)) }
    ensures none { IfNone result (most < length (frame_body message.now)) }
{
    match message {
        Message::Update { update, .. } => bounded(3, update_length(update)? as usize, 8),
        Message::Ack { .. } | Message::Stable { .. } => Some(11),
        Message::Adopt { list, .. } => bounded(13, updates_length(list.updates())? as usize, 0),
        Message::ReadBlock { rows, .. } => bounded(16, rows.rows().len(), 0),
        Message::Block { bytes, .. } => bounded(15, bytes.bytes().len(), 8),
        Message::Mark { .. } => Some(25),
        Message::Row { bytes, stamp, .. } => row_length(bytes.bytes(), stamp.numbers()),
        Message::Cease { .. } => Some(9),
        Message::Notice { .. } => Some(3),
    }
}

/// The sum, if it is no more than a frame may have.
fn bounded(before: usize, value: usize, behind: usize) -> Option<u32>
    requires before { before ≤ 512 }
    requires behind { behind ≤ most }
    ensures some { IfSome result (λ n. (n ≡ before + value + behind) × (n ≤ most)) }
    ensures none { IfNone result (most < before + value + behind) }
{
    if (MOST as usize) < value {
        return None;
    }
    let sum = before + value + behind;
    if (MOST as usize) < sum {
        return None;
    }
    Some(sum as u32)
}

fn stamp_length(numbers: &[u64]) -> Option<usize>
    ensures some { IfSome result (λ n. (n ≡ 8 * length numbers.now) × (n ≤ most)) }
    ensures none { IfNone result (most < 8 * length numbers.now) }
{
    if (MOST as usize) / 8 < numbers.len() {
        return None;
    }
    Some(8 * numbers.len())
}

/// How many bytes an update has, if they are no more than a frame may have.
fn update_length(u: &Update) -> Option<u32>
    ensures some { IfSome result (λ n. (n ≡ length (update u.now)) × (n ≤ most)) }
    ensures none { IfNone result (most < length (update u.now)) }
{
    let around = 18 + u.key.bytes().len() + frees_length(u.frees) + outcome_length(u.outcome);
    body_length(around, &u.body)
}

fn body_length(around: usize, body: &Body) -> Option<u32>
    requires { around ≤ 400 }
    ensures some { IfSome result (λ n. (n ≡ around + length (spec.body body.now)) × (n ≤ most)) }
    ensures none { IfNone result (most < around + length (spec.body body.now)) }
{
    match body {
        Body::Put { until, delta, .. } => bounded(
            around + 17 + until_length(*until),
            delta.len(),
            0,
        ),
        Body::Remove => Some(around as u32 + 1),
        Body::Touch { until } => Some((around + 1 + until_length(*until)) as u32),
    }
}

fn until_length(until: Option<u64>) -> usize
    ensures value { result ≡ length (maybe eight until) }
    ensures small { result ≤ 9 }
{
    match until {
        None => 1,
        Some(_) => 9,
    }
}

fn frees_length(frees: Option<Run>) -> usize
    ensures value { result ≡ length (maybe run frees) }
    ensures small { result ≤ 9 }
{
    match frees {
        None => 1,
        Some(_) => 9,
    }
}

fn outcome_length(outcome: Outcome) -> usize
    ensures value { result ≡ length (spec.outcome outcome) }
    ensures small { result ≤ 9 }
{
    match outcome {
        Outcome::Number(_) => 9,
        _ => 1,
    }
}

fn updates_length(updates: &[Update]) -> Option<u32>
    ensures some { IfSome result (λ n. (n ≡ length (flat_map update updates.now)) × (n ≤ most)) }
    ensures none { IfNone result (most < length (flat_map update updates.now)) }
{
    let mut sum = 0;
    'updates: for u in updates {
        match with_update(sum, u) {
            Some(more) => sum = more,
            None => return None,
        }
    }
    Some(sum)
}

fn with_update(sum: u32, u: &Update) -> Option<u32>
    requires { sum ≤ most }
    ensures some { IfSome result (λ n. (n ≡ sum + length (update u.now)) × (n ≤ most)) }
    ensures none { IfNone result (most < sum + length (update u.now)) }
{
    bounded(0, sum as usize, update_length(u)? as usize)
}

/// How many bytes the text of a row's block has, if they are no more than a frame may have.
fn row_length(bytes: &[u8], numbers: &[u64]) -> Option<u32>
    ensures some { IfSome result (λ n. (n ≡ 16 + length bytes.now + 8 * length numbers.now) × (n ≤ most)) }
    ensures none { IfNone result (most < 16 + length bytes.now + 8 * length numbers.now) }
{
    bounded(16, bytes.len(), stamp_length(numbers)?)
}
