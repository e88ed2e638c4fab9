// The known dead, and who heads a partition.
use crate::fixtures::{same, shape};
use group_types::{Partition, ProcessId};
use membership::{AlreadyDead, Members};

#[test]
fn the_next_rank_heads_a_lost_partition(rt: HostRuntime) {
    let mut members = Members::new(shape(&rt, 2, 2, 4));
    let (part, lost, next) = (
        Partition(1),
        ProcessId::DataNode(1),
        ProcessId::ParityNode(0),
    );
    same(
        &rt,
        (members.head_of(part), members.is_dead(lost)),
        (Some(lost), false),
    );
    same(
        &rt,
        (members.fail(lost), members.fail(lost)),
        (Ok(()), Err(AlreadyDead)),
    );
    same(
        &rt,
        (members.head_of(part), members.is_dead(lost)),
        (Some(next), true),
    );
    same(&rt, (members.lost(), members.is_down()), (1, false));
}
