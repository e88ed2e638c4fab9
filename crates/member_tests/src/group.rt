// The members of a group, what is on its way between them, and their clients.
ghost use Rattle.std.specs.Prelude.{◌≡◌, ◌+◌, ◌≤◌};

use crate::client::Kind;
use crate::crowd::{Crowd, Fault};
use crate::gateway::TestGateway;
use crate::lines::Lines;
use crate::seat::{Life, Seat};
use edge_io::FixedClock;
use group_node::process_at;
use group_types::{ProcessId, Shape};
use ready_worker::Overlap;
use std::alloc::{AllocError, Global};

/// How many processes a group has.
fn count_of(shape: Shape) -> u32
    ensures many { result ≡ shape.k + shape.m }
    ensures few { result ≤ 20 }
{
    shape.k() + shape.m()
}

/// The connections of all members, so many for each.
pub(crate) fn lines_of(alloc: Global, shape: Shape, each: usize) -> Result<Vec<Lines>, AllocError> {
    let mut lines = Vec::new(alloc);
    for _ in 0..count_of(shape) {
        lines.push(Lines::new(alloc, each)?)?;
    }
    Ok(lines)
}

/// The members of a group with their clients.
#[derive(Drop)]
pub(crate) struct Group<'t, G: TestGateway> {
    shape: Shape,
    pub(crate) seats: Vec<Seat<'t, G>>,
    pub(crate) crowd: Crowd<'t>,
    pub(crate) now: u64,
}

impl<'t, G: TestGateway> Group<'t, G> {
    pub(crate) fn new(
        alloc: Global,
        shape: Shape,
        lines: &'t [Lines],
        clock: &'t FixedClock,
        number: u64,
    ) -> Result<Group<'t, G>, AllocError> {
        let crowd = Crowd::new(alloc, lines, number)?;
        Ok(Group {
            shape,
            seats: seats_of(alloc, shape, lines, clock, overlap_of(number))?,
            crowd,
            now: 0,
        })
    }

    pub(crate) fn shape(&self) -> Shape {
        self.shape
    }

    pub(crate) fn many(&self) -> usize {
        self.seats.len()
    }

    /// The member so many behind another.
    pub(crate) fn after(&self, seat: usize, steps: usize) -> usize {
        seat.saturating_add(steps) % self.many().max(1)
    }

    /// Some member.
    pub(crate) fn pick_seat(&mut self) -> usize {
        self.crowd.pick_of(self.seats.len())
    }

    pub(crate) fn life(&self, seat: usize) -> Life {
        match self.seats.get(seat) {
            Some(seat) => seat.life,
            None => Life::Ended,
        }
    }

    pub(crate) fn put_life(&mut self, seat: usize, life: Life) {
        if let Some(seat) = self.seats.get_mut(seat) {
            seat.life = life;
        }
    }

    /// A further client at a member, on this connection. Says which one it is.
    pub(crate) fn join(&mut self, seat: usize, line: usize, kind: Kind) -> usize {
        if let Some(at) = self.seats.get_mut(seat) {
            let had = at.admits(line);
            self.crowd.note(had);
        }
        self.crowd.join(seat, line, kind)
    }

    /// A member's program makes a turn, and its clients hear what it wrote.
    pub(crate) fn turn(&mut self, seat: usize) {
        if let Some(at) = self.seats.get_mut(seat) {
            at.turn(self.now);
            if at.links.faults != 0 {
                self.crowd.fail(Fault::Misfit { seat });
            }
        }
        self.crowd.hear_at(seat);
    }

    /// At most so many frames of one member come to another.
    pub(crate) fn carry(&mut self, from: usize, to: usize, most: u32) {
        'frames: for _ in 0..most {
            if !self.carries_one(from, to) {
                return;
            }
        }
    }

    // Whether a frame was on its way.
    fn carries_one(&mut self, from: usize, to: usize) -> bool {
        let Some(seat) = self.seats.get_mut(from) else {
            return false;
        };
        let Some(frame) = seat.links.carry_out(to) else {
            return false;
        };
        if let Some(seat) = self.seats.get_mut(to) {
            let had = seat.links.carry_in(from, frame).is_ok();
            self.crowd.note(had);
        }
        true
    }

    /// A member's program ends: of what goes to others some comes.
    pub(crate) fn end(&mut self, seat: usize) {
        self.put_life(seat, Life::Ended);
        'others: for to in 0..self.many() {
            let keep = self.crowd.pick(8) as usize;
            if let Some(seat) = self.seats.get_mut(seat) {
                seat.links.lose(to, keep);
            }
        }
    }

    /// The operator says to a member that another is dead.
    pub(crate) fn say_dead(&mut self, to: usize, x: usize) {
        if let (Some(x), Some(seat)) = (name_at(self.shape, x), self.seats.get_mut(to)) {
            let had = seat.links.say_dead(x).is_ok();
            self.crowd.note(had);
        }
    }
}

// Of a dozen numbers the second six have calls on different keys under way together.
fn overlap_of(number: u64) -> Overlap {
    if number % 12 < 6 {
        Overlap::Never
    } else {
        Overlap::OtherKeys
    }
}

fn seats_of<'t, G: TestGateway>(
    alloc: Global,
    shape: Shape,
    lines: &'t [Lines],
    clock: &'t FixedClock,
    overlap: Overlap,
) -> Result<Vec<Seat<'t, G>>, AllocError> {
    let mut seats = Vec::new(alloc);
    'seats: for x in 0..count_of(shape) {
        let Some(lines) = lines.get(x as usize) else {
            break 'seats;
        };
        let name = process_at(shape, x);
        seats.push(Seat::new(alloc, shape, name, lines, clock, overlap)?)?;
    }
    Ok(seats)
}

fn name_at(shape: Shape, x: usize) -> Option<ProcessId> {
    let x = u32::try_from(x).ok()?;
    if x < count_of(shape) {
        return Some(process_at(shape, x));
    }
    None
}
