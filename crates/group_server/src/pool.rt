ghost use Rattle.std.specs.Prelude.{◌≡◌, IfOk, IfSome};
ghost use Rattle.group_stage.specs.Seated.{AreSeatsOf};

use crate::losses::Losses;
use crate::told_caller::ToldCaller;
use group_stage::{Seats, Stage};
use node_worker::Port;
use stage_caller::StageCaller;
use std::alloc::{AllocError, Global};
use std::sync::{Mutex, Wait};

/// Lends callers over one stage, each from a seat of its own. They take orders that a process fail where `control` is on.
#[derive(Drop)]
pub(crate) struct CallerPool<'d, 'a, R> {
    rt: &'d R,
    losses: &'d Losses,
    control: bool,
    callers: Mutex<Vec<StageCaller<'a>>>,
}

impl<'d, 'a, R: Wait> CallerPool<'d, 'a, R> {
    /// A caller for each of these seats.
    pub(crate) fn new(
        rt: &'d R,
        alloc: Global,
        stage: &'a Stage,
        seats: Seats,
        control: bool,
        losses: &'d Losses,
    ) -> Result<CallerPool<'d, 'a, R>, AllocError>
        requires { AreSeatsOf stage.now seats.seats }
        ensures control { IfOk result (λ pool. pool.control ≡ control) }
    {
        let mut rest = seats;
        let mut callers = Vec::with_capacity(alloc, rest.count() as usize)?;
        'seats: while let Some(seat) = rest.take() {
            callers.push(StageCaller::new(stage, seat, control))?;
        }
        Ok(CallerPool {
            rt,
            losses,
            control,
            callers: Mutex::new(callers),
        })
    }
}

impl<R> CallerPool<'_, '_, R> {
    /// What is lost by the orders of its callers.
    pub(crate) fn losses(&self) -> &Losses {
        self.losses
    }
}

impl<'d, 'a, R: Wait + Sync> Port for CallerPool<'d, 'a, R> {
    type Lent = ToldCaller<'d, StageCaller<'a>>;

    fn lend(&self) -> Option<ToldCaller<'d, StageCaller<'a>>>
        ensures control { IfSome result (λ lent. lent.caller.control ≡ self.now.control) }
    {
        let mut caller = self.callers.try_lock()?.pop()?;
        caller.take_orders(self.control);
        Some(ToldCaller::new(caller, self.losses))
    }

    // There is room, since each caller came from here.
    fn give_back(&self, lent: ToldCaller<'d, StageCaller<'a>>) {
        let mut callers = self.callers.lock(self.rt);
        let _ = callers.push(lent.into_caller());
    }
}
