ghost use Rattle.std.specs.Prelude.{◌≡◌, ◌≢◌, ℕ, false, IfNone, IfSome};
ghost use Rattle.group_types.specs.Names.{IsProcess};
ghost use Rattle.group_types.specs.declared.process.ProcessId.{ProcessId};
ghost use Rattle.stage_caller.specs.Going.{BeginsRound, GoesTo, Helps, IsNextRank, PassesLink, Rests, Turns};
ghost use Rattle.stage_caller.specs.Moving.{CanMake, IsLink};
ghost use Rattle.stage_caller.specs.Rounds.{IsHelped, IsNextLink, IsNextMove, expects, server_of};
ghost use Rattle.stage_caller.specs.declared.phase.Phase.{Phase};
ghost use Rattle.stage_caller.specs.declared.step.Move.TheVariants as makes;

use crate::link::{Link, any_link, near_link};
use crate::phase::Phase;
use crate::route::Route;
use crate::step::{Heard, Move};
use group_types::ProcessId;

/// After so many rounds in which nothing moved all links are helped.
const IDLE_ROUNDS: u32 = 4;

/// Which links are helped before the call's own move, and the place of the next. `Onward` helps none: the call went on to
/// another process, which is no round.
#[derive(Clone, Copy, Debug, PartialEq, Eq)]
enum Round {
    Onward,
    Over,
    Near(u32),
    All(u32),
}

/// What a call knows of where to go and whom to help. No promise depends on it.
#[derive(Clone, Copy)]
pub(crate) struct Progress {
    pub(crate) route: Route,
    caller: u32,
    round: Round,
    waits: bool,
    moved: bool,
    idle: u32,
    traces: bool,
}

impl Progress {
    pub(crate) fn new(route: Route, caller: u32) -> Progress
        ensures route { result.route ≡ route }
        ensures caller { result.caller ≡ caller }
        ensures round { result.round ≡ Round.Over }
        ensures traces { result.traces ≡ false }
        ensures idle { result.idle ≡ 0 }
    {
        Progress {
            route,
            caller,
            round: Round::Over,
            waits: false,
            moved: true,
            idle: 0,
            traces: false,
        }
    }

    /// How many rounds nothing has moved, where a round begins.
    pub(crate) fn rests(&self) -> u32
        ensures onward { self.now.round ≡ Round.Onward → result ≡ 0 }
    {
        match self.round {
            Round::Over | Round::Near(0) | Round::All(0) => self.idle,
            Round::Onward | Round::Near(_) | Round::All(_) => 0,
        }
    }

    /// The next move: at a link of the round a delivery where a message is taken to wait, and else a look; where no link is
    /// left the call's own.
    pub(crate) fn next(&self, phase: Phase) -> Move
        ensures can { CanMake self.now.route.shape phase result }
        ensures next { IsNextMove self.now result }
    {
        match self.link() {
            Some(link) if self.expects() => Move::Deliver(link.from, link.to),
            Some(link) => Move::Look(link.from, link.to),
            None => self.own(phase, self.route.server()),
        }
    }

    // (a look at a link of the call's own update would take the node that the delivery takes again)
    fn expects(&self) -> bool
        ensures { result ≡ expects self.now }
    {
        self.waits || matches!(self.round, Round::Near(_)) && self.idle == 0
    }

    fn link(&self) -> Option<Link>
        ensures link { IfSome result (λ link. IsLink self.now.route.shape link.from link.to) }
        ensures at { IfSome result (λ link. IsNextLink self.now link.from link.to) }
        ensures none { IfNone result (IsHelped self.now.route.shape self.now.round) }
    {
        match self.round {
            Round::Onward | Round::Over => None,
            Round::Near(place) => near_link(&self.route, self.caller, place),
            Round::All(place) => any_link(self.route.shape, place),
        }
    }

    fn own(&self, phase: Phase, at: ProcessId) -> Move
        requires { IsProcess self.now.route.shape at }
        ensures can { CanMake self.now.route.shape phase result }
        ensures next { IsHelped self.now.route.shape self.now.round → at ≡ server_of self.now.route
            → IsNextMove self.now result }
    {
        match phase {
            Phase::Asks => Move::Ask(at),
            Phase::Waits { call } if self.traces => Move::Trace(call, at),
            Phase::Waits { call } => Move::Collect(call, at),
        }
    }

    /// What is known after a move that led to this phase.
    pub(crate) fn after(&self, made: Move, phase: Phase, heard: Heard) -> Progress
        ensures shape { result.route.shape ≡ self.now.route.shape }
        ensures partition { result.route.partition ≡ self.now.route.partition }
        ensures goes { GoesTo made phase heard self.now result }
        ensures helps { Helps made phase heard self.now result }
    {
        match made {
            Move::Look(..) if heard == Heard::Moves => Progress {
                waits: true,
                ..*self
            },
            Move::Look(..) | Move::Deliver(..) => self.after_link(heard),
            Move::Ask(_) => self.after_ask(phase, heard),
            Move::Collect(..) => self.after_collect(heard),
            Move::Trace(..) => self.after_trace(phase, heard),
        }
    }

    fn after_link(&self, heard: Heard) -> Progress
        ensures route { result.route ≡ self.now.route }
        ensures traces { result.traces ≡ self.now.traces }
        ensures passes { PassesLink heard self.now result }
    {
        let round = match self.round {
            Round::Onward | Round::Over => self.round,
            Round::Near(place) => Round::Near(place.saturating_add(1)),
            Round::All(place) => Round::All(place.saturating_add(1)),
        };
        Progress {
            round,
            waits: false,
            moved: self.moved || heard == Heard::Moves,
            ..*self
        }
    }

    fn after_ask(&self, phase: Phase, heard: Heard) -> Progress
        ensures shape { result.route.shape ≡ self.now.route.shape }
        ensures partition { result.route.partition ≡ self.now.route.partition }
        ensures goes { (at : ProcessId) → GoesTo (makes.Ask at) phase heard self.now result }
        ensures helps { (at : ProcessId) → Helps (makes.Ask at) phase heard self.now result }
    {
        if phase != Phase::Asks {
            return self.helps(Round::Near(0));
        }
        match heard {
            Heard::Elsewhere => self.goes_on(),
            Heard::Block => self.helps(Round::All(0)),
            Heard::Busy => self.helps(Round::Over),
            Heard::Moves | Heard::Nothing => self.waits(),
        }
    }

    fn after_collect(&self, heard: Heard) -> Progress
        ensures shape { result.route.shape ≡ self.now.route.shape }
        ensures partition { result.route.partition ≡ self.now.route.partition }
        ensures goes { (call : ℕ) (at : ProcessId) (phase : Phase)
            → GoesTo (makes.Collect call at) phase heard self.now result }
        ensures helps { (call : ℕ) (at : ProcessId) (phase : Phase)
            → Helps (makes.Collect call at) phase heard self.now result }
    {
        if heard != Heard::Elsewhere {
            return self.waits();
        }
        Progress {
            route: self.route.first(),
            round: Round::Onward,
            traces: true,
            ..*self
        }
    }

    fn after_trace(&self, phase: Phase, heard: Heard) -> Progress
        ensures shape { result.route.shape ≡ self.now.route.shape }
        ensures partition { result.route.partition ≡ self.now.route.partition }
        ensures goes { (call : ℕ) (at : ProcessId) → GoesTo (makes.Trace call at) phase heard self.now result }
        ensures helps { (call : ℕ) (at : ProcessId) → Helps (makes.Trace call at) phase heard self.now result }
    {
        if phase == Phase::Asks {
            return Progress {
                round: Round::Onward,
                traces: false,
                ..*self
            };
        }
        if heard == Heard::Elsewhere {
            self.goes_on()
        } else {
            self.helps(Round::All(0))
        }
    }

    // To the process of the next rank, and round all links once all of the partition were asked. Only that is a round.
    fn goes_on(&self) -> Progress
        ensures shape { result.route.shape ≡ self.now.route.shape }
        ensures partition { result.route.partition ≡ self.now.route.partition }
        ensures next { IsNextRank self.now.route result.route }
        ensures traces { result.traces ≡ self.now.traces }
        ensures turns { Turns self.now result }
    {
        let next = Progress {
            route: self.route.further(1),
            round: Round::Onward,
            ..*self
        };
        if next.route.is_round() {
            next.helps(Round::All(0))
        } else {
            next
        }
    }

    // Round the links of the call's own update, and then round all.
    fn waits(&self) -> Progress
        ensures route { result.route ≡ self.now.route }
        ensures traces { result.traces ≡ self.now.traces }
        ensures rests { Rests self.now result }
    {
        if self.idle < IDLE_ROUNDS {
            self.helps(Round::Near(0))
        } else {
            self.helps(Round::All(0))
        }
    }

    // A round begins.
    fn helps(&self, round: Round) -> Progress
        ensures route { result.route ≡ self.now.route }
        ensures traces { result.traces ≡ self.now.traces }
        ensures begins { BeginsRound round self.now result }
    {
        let idle = if self.moved {
            0
        } else {
            self.idle.saturating_add(1)
        };
        Progress {
            round,
            idle,
            moved: false,
            ..*self
        }
    }
}
