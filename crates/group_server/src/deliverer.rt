ghost use Rattle.std.specs.Prelude.{◌≡◌, ◌≢◌, ◌<◌, IsTrue};
ghost use Rattle.group_server.specs.Delivering.{HasDelivered};
ghost use Rattle.group_stage.specs.Seated.{IsOf, shape_of};
ghost use Rattle.group_types.specs.Dimensions.{processes_of};

use crate::bell::Bell;
use crate::losses::Losses;
use crate::notice::Notice;
use crate::telling::tell_losses;
use group_calls::Answer;
use group_node::process_at;
use group_stage::{Looked, Seat, Stage, StageAnswer};
use std::sync::Wait;
use std::thread;
use std::time::Duration;

/// The first pause, in microseconds.
const SHORTEST: u64 = 50;

/// The longest pause, in microseconds, and its least part for each link.
const LONGEST: u64 = 10_000;

const FOR_LINK: u64 = 200;

/// Delivers over all links of a group, from a seat of its own.
#[derive(Drop)]
pub(crate) struct Deliverer<'a> {
    stage: &'a Stage,
    seat: Seat,
    ghost of_stage: { IsOf stage.now seat },
}

impl<'a> Deliverer<'a> {
    /// One that delivers from this seat.
    pub(crate) fn new(stage: &'a Stage, seat: Seat) -> Deliverer<'a>
        requires { IsOf stage.now seat }
    {
        Deliverer { stage, seat }
    }

    /// Delivers until the bell rings, and tells of processes that are lost. After a round that moved nothing it pauses, each
    /// time twice as long.
    pub(crate) fn run<R: Wait, N: Notice>(
        &mut self,
        rt: &R,
        bell: &Bell,
        losses: &Losses,
        notice: &N,
    ) {
        let shape = self.stage.shape();
        let longest = self.longest();
        let mut pause = SHORTEST;
        let mut told = 0;
        'rounds: for _ in rt.forever() {
            let is_over = bell.rang();
            told = tell_losses(shape, losses, told, notice);
            if is_over {
                return;
            }
            if self.go_round() {
                pause = SHORTEST;
                thread::yield_now();
            } else {
                bell.pause(rt, Duration::from_micros(pause));
                pause = longest.min(pause.saturating_mul(2));
            }
        }
    }

    // The longest pause: a group of many processes has so many links that a round over them takes its time.
    fn longest(&self) -> u64 {
        let shape = self.stage.shape();
        let processes = u64::from(shape.k() + shape.m());
        LONGEST.max(processes * processes * FOR_LINK)
    }

    // Looks at each link once, and says whether a message was received.
    fn go_round(&mut self) -> bool {
        let shape = self.stage.shape();
        let processes = shape.k() + shape.m();
        let mut moved = false;
        'senders: for from in 0..processes {
            'receivers: for to in 0..processes {
                if from != to && self.deliver(from, to) {
                    moved = true;
                }
            }
        }
        moved
    }

    // Delivers over the link between the processes with these indices if it holds a message, and says whether it was
    // received: none is in a group that is down.
    fn deliver(&mut self, from: u32, to: u32) -> bool
        requires from { from < processes_of (shape_of self.old.stage.now) }
        requires to { to < processes_of (shape_of self.old.stage.now) }
        requires apart { from ≢ to }
        ensures stage { self.new.stage ≡ self.old.stage }
        ensures moved { IsTrue result → HasDelivered self.old.seat self.new.seat }
    {
        let shape = self.stage.shape();
        let (from, to) = (process_at(shape, from), process_at(shape, to));
        if self.stage.try_look(&mut self.seat, from, to) != Looked::Waits {
            return false;
        }
        matches!(
            self.stage.try_deliver(&mut self.seat, from, to),
            Ok(StageAnswer::Made(Answer::Done))
        )
    }
}
