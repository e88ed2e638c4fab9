//! What one round of a script does.

ghost use Rattle.std.specs.Prelude.{◌≡◌, ◌<◌};
ghost use Rattle.scenario_make.specs.Rounds.{after_round, round_from};

use crate::draws::Draws;

/// A call on a key, a delivery, or what a process does by itself.
#[derive(Clone, Copy, Debug)]
pub enum Round {
    Set { caller: u32, key: u32, len: u32 },
    Get { caller: u32, key: u32 },
    Delete { caller: u32, key: u32 },
    Deliver { from: u32, to: u32 },
    Drain,
    Flush { data: u32 },
}

impl Round {
    ghost use Rattle.std.specs.Prelude.{◌+◌};
    ghost use Rattle.scenario_make.specs.Draws.{after_draws, draw};

    /// The next round.
    pub fn draw(draws: &mut Draws) -> Self
        ensures round { result ≡ round_from draws.old }
        ensures state { draws.new ≡ after_round draws.old }
    {
        match draws.draw(10) {
            0..=3 => Self::draw_set(draws),
            4 | 5 => Self::draw_get(draws),
            6 => Self::draw_deliver(draws),
            7 => Self::Drain,
            8 => Self::Flush {
                data: draws.draw(3),
            },
            _ => Self::draw_delete(draws),
        }
    }

    fn draw_set(draws: &mut Draws) -> Self
        ensures round { result ≡ Round.Set (draw draws.old 1 8) (draw draws.old 2 20) (draw draws.old 3 40 + 1) }
        ensures state { draws.new ≡ after_draws draws.old 3 }
    {
        let caller = draws.draw(8);
        let key = draws.draw(20);
        let len = draws.draw(40) + 1;
        Self::Set { caller, key, len }
    }

    fn draw_get(draws: &mut Draws) -> Self
        ensures round { result ≡ Round.Get (draw draws.old 1 8) (draw draws.old 2 20) }
        ensures state { draws.new ≡ after_draws draws.old 2 }
    {
        let caller = draws.draw(8);
        let key = draws.draw(20);
        Self::Get { caller, key }
    }

    fn draw_delete(draws: &mut Draws) -> Self
        ensures round { result ≡ Round.Delete (draw draws.old 1 8) (draw draws.old 2 20) }
        ensures state { draws.new ≡ after_draws draws.old 2 }
    {
        let caller = draws.draw(8);
        let key = draws.draw(20);
        Self::Delete { caller, key }
    }

    fn draw_deliver(draws: &mut Draws) -> Self
        ensures round { result ≡ Round.Deliver (draw draws.old 1 5) (draw draws.old 2 5) }
        ensures state { draws.new ≡ after_draws draws.old 2 }
    {
        let from = draws.draw(5);
        let to = draws.draw(5);
        Self::Deliver { from, to }
    }
}
