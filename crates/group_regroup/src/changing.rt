ghost use Rattle.std.specs.Prelude.{◌≡◌, ◌≤◌, IfOk};
ghost use Rattle.group_types.specs.Lists.{at};
ghost use Rattle.group_eras.specs.Told.{op_for_era};

use group_types::home;
use memc_table::{Act, Op};
use std::alloc::AllocError;

/// A call whose cas number wasn't above the base, so that its op went in with another: the places of the world's log
/// at which the event that asked it logged something, its name, and its op as it was asked.
#[derive(Debug, Drop)]
pub(crate) struct Lowered {
    pub(crate) from: usize,
    pub(crate) until: usize,
    pub(crate) caller: u32,
    pub(crate) call: u64,
    pub(crate) op: Op,
}

/// The op as the era's world makes it: the cas number has the base taken off.
pub(crate) fn changed_op(bases: &[u64], k: u32, op: &Op) -> Result<Op, AllocError>
    requires { 1 ≤ k }
    ensures { IfOk result (λ changed. changed ≡ op_for_era bases.now k op.now) }
{
    match op.act() {
        Act::Cas {
            key,
            flags,
            expiry,
            cas,
            value,
        } => {
            let base = base_of(bases, home(key, k).0);
            let key = key.clone()?;
            let value = value.clone()?;
            let act = Act::Cas {
                key,
                flags: *flags,
                expiry: *expiry,
                cas: cas.saturating_sub(base),
                value,
            };
            Ok(Op::new(op.now(), act))
        }
        _ => op.clone(),
    }
}

/// The base of a partition.
pub(crate) fn base_of(bases: &[u64], partition: u32) -> u64
    ensures { result ≡ at 0 bases.now partition }
{
    let place = partition as usize;
    if place < bases.len() { bases[place] } else { 0 }
}
