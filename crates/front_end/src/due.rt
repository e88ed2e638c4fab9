ghost use Rattle.std.specs.Prelude.{◌≡◌, ◌∷◌, [], false, IfOk};
ghost use Rattle.memc_proto.specs.declared.request.Request.TheVariants as request;
ghost use Rattle.front_end.specs.Progress.{behind};
ghost use Rattle.front_end.specs.Settling.{IsCallDue, IsDueOf};

use crate::keys::keys_behind;
use edge_io::Clock;
use group_types::{Key, ProcessId};
use memc_proto::Request;
use memc_table::{Act, Op};
use std::alloc::AllocError;

/// What a request needs next.
#[derive(Debug, Drop)]
pub enum Due {
    /// A call.
    Call(Op),
    /// An order that a process fail.
    Fail { at: ProcessId, keep: u32 },
    /// Nothing: its text can be written.
    Text,
}

/// What a request needs next of which so many keys are answered.
pub(crate) fn due_at<T: Clock>(
    request: &Request,
    answered: usize,
    clock: &T,
) -> Result<Due, AllocError>
    ensures { IfOk result (IsDueOf (T.moment clock.now) (behind answered request.now)) }
{
    match request {
        Request::Get { keys, .. } => due_of_keys(keys_behind(keys.keys(), answered), clock),
        Request::Change { act, .. } => Ok(call_at(copy_of(act)?, clock)),
        Request::Fail { at, keep } => Ok(Due::Fail {
            at: *at,
            keep: *keep,
        }),
        Request::Version => Ok(Due::Text),
        Request::Quit => Ok(Due::Text),
        Request::Refused(_) => Ok(Due::Text),
    }
}

/// What a get needs next that still asks these keys.
fn due_of_keys<T: Clock>(keys: &[Key], clock: &T) -> Result<Due, AllocError>
    ensures { IfOk result (IsDueOf (T.moment clock.now) (request.Get keys.now false)) }
{
    let Some(key) = keys.first() else {
        return Ok(Due::Text);
    };
    Ok(call_at(get_of(key)?, clock))
}

/// A call at a moment of its own.
fn call_at<T: Clock>(act: Act, clock: &T) -> Due
    ensures { IsCallDue (T.moment clock.now) act result }
{
    Due::Call(Op::new(clock.now(), act))
}

pub(crate) fn copy_of(act: &Act) -> Result<Act, AllocError>
    ensures { IfOk result (λ copy. copy ≡ act.now) }
{
    act.clone()
}

pub(crate) fn get_of(key: &Key) -> Result<Act, AllocError>
    ensures { IfOk result (λ act. act ≡ Act.Get key.now) }
{
    Ok(Act::Get { key: key.clone()? })
}
