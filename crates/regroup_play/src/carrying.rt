ghost use Rattle.std.specs.Prelude.{◌≤◌, ◌<◌, ◌^◌, Some, All, IsTrue};
ghost use Rattle.group_eras.specs.Promise.{IsLed};
ghost use Rattle.group_eras.specs.Refusal.{IsSuccessor};
ghost use Rattle.scenario_play.specs.Player.{bytes_in_text};
ghost use Rattle.scenario_play.specs.Script.{HasDone};
ghost use Rattle.regroup_run.specs.Playing.{by_regroup};
ghost use Rattle.regroup_play.specs.Carrying.{HasCarriedOn, HasToldRefusal, IsWrittenAs, carried_text};

use crate::playing::EraPlay;
use crate::writing::write_since;
use group_eras::CarryFault;
use group_regroup::Regroup;
use group_types::{Partition, Shape};
use scenario_text::LineFault;
use std::alloc::{AllocError, Global};

// A carry asks for fewer events than this.
const MOST_EVENTS: u64 = 1 << 58;

// And for lower bases.
const MOST_UPDATES: u64 = 1 << 62;

/// Treats a line `regroup`: the items are carried, or a line says why not.
pub(crate) fn follow_regroup(
    alloc: Global,
    play: &mut EraPlay,
    shape: Shape,
) -> Result<Option<Vec<u8>>, LineFault>
    requires led { IsLed play.old.eras }
    requires successor { IsSuccessor play.old.eras.world shape }
    ensures { HasDone LineFault.Want (Some play.old) (by_regroup play.old shape) (Some play.new)
        (bytes_in_text result) }
{
    let era = play.regroup.era();
    let from = play.regroup.world().log().len();
    match carry(&mut play.regroup, shape) {
        Ok(count) => write_carried(alloc, &play.regroup, era, from, count),
        Err(fault) => write_refusal(alloc, &fault),
    }
}

/// Carries the items. That a number would be too high is told as want of memory.
fn carry(regroup: &mut Regroup, shape: Shape) -> Result<u64, CarryFault>
    requires led { IsLed regroup.old }
    requires successor { IsSuccessor regroup.old.world shape }
    ensures { HasCarriedOn regroup.old regroup.new shape result }
{
    if MOST_EVENTS <= regroup.world().events() || !has_low_bases(regroup) {
        return Err(CarryFault::Want);
    }
    regroup.carry(shape)
}

/// Whether each base is so low that a carry can raise it.
fn has_low_bases(regroup: &Regroup) -> bool
    requires led { IsLed regroup.now }
    ensures { IsTrue result → All (λ base. base < 2 ^ 62) regroup.now.bases }
{
    'partitions: for partition in 0..regroup.world().shape().k() {
        if MOST_UPDATES <= regroup.base(Partition(partition)) {
            return false;
        }
    }
    true
}

/// How many items were carried, and what was logged of reading them in an era from a place on, and of setting them in
/// the current one.
fn write_carried(
    alloc: Global,
    regroup: &Regroup,
    era: usize,
    from: usize,
    count: u64,
) -> Result<Option<Vec<u8>>, LineFault>
    requires { era ≤ regroup.now.era }
    ensures { IsWrittenAs (carried_text regroup.now era from count) (bytes_in_text result) }
{
    let mut text = format!(in alloc; "regrouped {count}\n")?.into_bytes();
    write_since(alloc, regroup, era, from, &mut text)?;
    write_since(alloc, regroup, regroup.era(), 0, &mut text)?;
    Ok(Some(text))
}

/// Why nothing was carried, on a line.
fn write_refusal(alloc: Global, fault: &CarryFault) -> Result<Option<Vec<u8>>, LineFault>
    ensures { HasToldRefusal fault.now (bytes_in_text result) }
{
    let text = match fault {
        CarryFault::Down => Vec::from_slice(alloc, b"down\n"),
        CarryFault::NotDrained => Vec::from_slice(alloc, b"not_drained\n"),
        CarryFault::NoSpace { .. } => Vec::from_slice(alloc, b"no_space\n"),
        CarryFault::Want => Err(AllocError),
    };
    Ok(Some(text?))
}
