ghost use Rattle.std.specs.Prelude.{◌≡◌, ◌<◌, length, IfOk, IfSome, OnErr};
ghost use Rattle.field_byte.specs.Vectors.{add_bytes};
ghost use Rattle.group_types.specs.Dimensions.{space_of};
ghost use Rattle.group_run.specs.Deciding.{decide_left, decide_placed, decide_written};
ghost use Rattle.group_run.specs.Fitting.{IsRunOf};
ghost use Rattle.group_run.specs.Free.{place_for};
ghost use Rattle.head_service.specs.Beneath.{found_by};
ghost use Rattle.head_service.specs.Issuing.{IsWholeDecision};
ghost use Rattle.head_service.specs.Wanting.{IssuesUpdate};

use crate::beneath::Beneath;
use group_calls::{Decision, Found};
use group_message::{Body, Outcome};
use group_types::{ByteList, Partition, Payload, Run};
use lane_kernel::xor_into;
use memc_table::Holding;
use partition_replica::Replica;
use std::alloc::AllocError;

/// An accepted op becomes an update by what it leaves: no item, the item with another end, or a value.
pub fn decide_left<B: Beneath>(
    partition: Partition,
    replica: &Replica,
    below: &B,
    outcome: Outcome,
    touch: bool,
    leaves: Option<Holding>,
) -> Result<Decision, AllocError>
    requires partition { partition.0 < (B.storage below.now).shape.k }
    requires shape { (B.storage below.now).shape ≡ replica.now.shape }
    ensures decision { IfOk result (λ d. d ≡ decide_left (space_of replica.now.shape) replica.now.replica
        (found_by partition.0 (B.storage below.now)) outcome touch leaves) }
    ensures whole { IfOk result (IsWholeDecision replica.now.shape) }
    ensures wanted { OnErr result (IssuesUpdate (decide_left (space_of replica.now.shape) replica.now.replica
        (found_by partition.0 (B.storage below.now)) outcome touch leaves)) }
{
    let body = match leaves {
        None => Body::Remove,
        Some(holding) if touch => Body::Touch {
            until: holding.until,
        },
        Some(holding) => return decide_placed(partition, replica, below, outcome, holding),
    };
    Ok(Decision::Issue { body, outcome })
}

fn decide_placed<B: Beneath>(
    partition: Partition,
    replica: &Replica,
    below: &B,
    outcome: Outcome,
    holding: Holding,
) -> Result<Decision, AllocError>
    requires partition { partition.0 < (B.storage below.now).shape.k }
    requires shape { (B.storage below.now).shape ≡ replica.now.shape }
    ensures decision { IfOk result (λ d. d ≡ decide_placed (found_by partition.0 (B.storage below.now)) outcome holding
        (place_for (space_of replica.now.shape) replica.now.replica (length holding.item.value))) }
    ensures whole { IfOk result (IsWholeDecision replica.now.shape) }
    ensures wanted { OnErr result (IssuesUpdate (decide_placed (found_by partition.0 (B.storage below.now)) outcome holding
        (place_for (space_of replica.now.shape) replica.now.replica (length holding.item.value)))) }
{
    match place(replica, below.space(), holding.item.value.len()) {
        None => Ok(Decision::NoSpace),
        Some(run) => decide_written(partition, below, outcome, &holding, run),
    }
}

// Where a value of so many bytes is placed; one that is longer than the space finds no place.
pub(crate) fn place(replica: &Replica, space: u32, len: usize) -> Option<Run>
    requires space { space ≡ space_of replica.now.shape }
    ensures place { result ≡ place_for space replica.now.replica len }
    ensures run { IfSome result (λ run. IsRunOf space len run) }
{
    if (space as usize) < len {
        return None;
    }
    replica.place(len as u32)
}

fn decide_written<B: Beneath>(
    partition: Partition,
    below: &B,
    outcome: Outcome,
    holding: &Holding,
    run: Run,
) -> Result<Decision, AllocError>
    requires partition { partition.0 < (B.storage below.now).shape.k }
    requires run { IsRunOf (space_of (B.storage below.now).shape) (length holding.now.item.value) run }
    ensures decision { IfOk result (λ d. d ≡ decide_written outcome holding.now run
        (found_by partition.0 (B.storage below.now) run)) }
    ensures whole { IfOk result (IsWholeDecision (B.storage below.now).shape) }
    ensures wanted { OnErr result (IssuesUpdate (decide_written outcome holding.now run
        (found_by partition.0 (B.storage below.now) run))) }
{
    match below.find(partition, run)? {
        Found::Missing(block) => Ok(Decision::NeedBlock(block)),
        Found::Bytes(under) => {
            let body = Body::Put {
                flags: holding.item.flags,
                until: holding.until,
                run,
                delta: difference(&holding.item.value, under)?,
            };
            Ok(Decision::Issue { body, outcome })
        }
    }
}

// What has to be added to these bytes to make them the value.
fn difference(value: &Payload, under: ByteList) -> Result<Payload, AllocError>
    requires { length under ≡ length value.now }
    ensures delta { IfOk result (λ delta. delta ≡ add_bytes value.now under) }
    ensures length { IfOk result (λ delta. length delta ≡ length value.now) }
{
    let mut delta = under;
    xor_into(value.bytes(), delta.bytes_mut());
    Payload::from_vec(Vec::from(delta))
}
