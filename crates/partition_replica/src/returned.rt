// Runs that come back once a log is applied up to a number.
ghost use Rattle.std.specs.Prelude.{◌≡◌, ℕ, ◌+◌, ◌-◌, ◌<◌, ◌≤◌, true, false};
ghost use Rattle.run_alloc.specs.Free.{AllFree};
ghost use Rattle.request_log.specs.Logged.{IsNumbered};
ghost use Rattle.group_run.specs.Free.{in_run};
ghost use Rattle.partition_replica.specs.Coming.{is_returned, returned_by};

use crate::runs::run_of;
use crate::updates::Updates;
use group_message::Update;
use group_types::Run;
use request_log::Log;

/// The run that an update of the log gives back once everything up to `stable` is applied, and the
/// rest dropped, or not.
pub fn returned_by(update: &Update, stable: u64, drops: bool) -> Option<Run>
    ensures { result ≡ returned_by drops stable update.now }
{
    if update.number <= stable {
        update.frees
    } else if drops {
        run_of(update)
    } else {
        None
    }
}

/// How many addresses of a run are left from `at` on, or 0 where `at` isn't in it.
pub fn left_from(run: Run, at: u32) -> u32
    ensures held { AllFree (λ a. in_run a run) at result }
    ensures none { result ≡ 0 → in_run at run ≡ false }
{
    if run.at <= at && at - run.at < run.len {
        run.len - (at - run.at)
    } else {
        0
    }
}

/// How many addresses from `at` on are in one run that an update of the log gives back.
pub fn returned_from(log: &Log<Updates>, at: u32, stable: u64, drops: bool) -> u32
    ensures held { AllFree (is_returned drops stable log.now.updates) at result }
    ensures none { result ≡ 0 → is_returned drops stable log.now.updates at ≡ false }
    ensures numbered { IsNumbered (λ u. u.number) log.now.applied log.now.updates }
{
    let mut most = 0;
    'updates: for update in log.iter() {
        if let Some(run) = returned_by(update, stable, drops) {
            most = most.max(left_from(run, at));
        }
    }
    most
}
