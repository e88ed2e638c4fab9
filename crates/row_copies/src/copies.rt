// The copies of a row, one for each session.
ghost use Rattle.std.specs.Prelude.{◌≡◌, ◌<◌, ◌≤◌, vec_len, vec_capacity, ◌==◌, ◌&&◌, nat_le, [], ◌∷◌, map, filter, not, All, IfSome, IfNone, None};
ghost use Rattle.group_types.specs.declared.process.ProcessId.TheVariants.{ParityNode};
ghost use Rattle.group_run.specs.Applying.{copy_after};
ghost use Rattle.group_run.specs.Rows.{copy_in};
ghost use Rattle.row_copies.specs.Row.{CopyStandsAt, HaveOneEach, IsWholeCopy, marking};

use crate::copy::Copy;
use group_message::Update;
use group_types::{Partition, Shape};

/// The place of the copy for a session, if there is one.
pub fn place_of(copies: &[Copy], leader: u32, number: u64) -> Option<usize>
    ensures some { IfSome result (CopyStandsAt leader number copies.now) }
    ensures none { IfNone result (copy_in copies.now leader number ≡ None) }
{
    'copies: for place in 0..copies.len() {
        if copies[place].is_of(leader, number) {
            return Some(place);
        }
    }
    None
}

/// Adds an update to each copy.
pub fn add(copies: &mut Vec<Copy>, shape: Shape, number: u32, d: Partition, update: &Update)
    requires whole { All (IsWholeCopy shape) copies.old.items }
    requires number { number < shape.m }
    requires partition { d.0 < shape.k }
    ensures len { vec_len copies.new ≡ vec_len copies.old }
    ensures capacity { vec_capacity copies.new ≡ vec_capacity copies.old }
    ensures copies { copies.new.items
        ≡ map (copy_after shape (ParityNode number) d.0 (update.now ∷ [])) copies.old.items }
    ensures whole { All (IsWholeCopy shape) copies.new.items }
{
    'copies: for place in 0..copies.len() {
        copies[place].add(shape, number, d, update);
    }
}

/// Marks a partition in the copy for a session, if there is one, and hands it out if it was the last.
pub fn mark(
    copies: &mut Vec<Copy>,
    shape: Shape,
    leader: u32,
    number: u64,
    d: Partition,
    n: u64,
) -> Option<Copy>
    requires whole { All (IsWholeCopy shape) copies.old.items }
    requires each { HaveOneEach copies.old.items }
    requires partition { d.0 < shape.k }
    ensures copies { copies.new.items
        ≡ (marking shape d.0 n (copy_in copies.old.items leader number) copies.old.items).copies }
    ensures done { result ≡ (marking shape d.0 n (copy_in copies.old.items leader number) copies.old.items).done }
    ensures whole { IfSome result (IsWholeCopy shape) }
    ensures len { vec_len copies.new ≤ vec_len copies.old }
    ensures capacity { vec_capacity copies.new ≡ vec_capacity copies.old }
{
    let place = place_of(copies, leader, number)?;
    if !copies[place].mark(shape, d, n) {
        return None;
    }
    Some(copies.remove(place))
}

/// Drops the copies for a leader's sessions up to a number.
pub fn cease(copies: &mut Vec<Copy>, leader: u32, upto: u64)
    ensures copies { copies.new.items
        ≡ filter (λ c. not (c.leader == leader && nat_le c.number upto)) copies.old.items }
    ensures len { vec_len copies.new ≤ vec_len copies.old }
    ensures capacity { vec_capacity copies.new ≡ vec_capacity copies.old }
{
    copies.retain(|copy| !(copy.leader() == leader && copy.number() <= upto));
}

/// Drops the copies for a leader's sessions.
pub fn forget(copies: &mut Vec<Copy>, leader: u32)
    ensures copies { copies.new.items ≡ filter (λ c. not (c.leader == leader)) copies.old.items }
    ensures len { vec_len copies.new ≤ vec_len copies.old }
    ensures capacity { vec_capacity copies.new ≡ vec_capacity copies.old }
{
    copies.retain(|copy| copy.leader() != leader);
}
