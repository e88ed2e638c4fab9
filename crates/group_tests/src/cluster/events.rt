// Events of two groups, of two data processes and a parity process each, on four nodes. The keys a and b are of
// group 0, c and d of group 1: FNV-1a gives e40c292c, e70c2de5, e60c2c52 and e10c2473.
use group_calls::Event;
use group_cluster::{Cluster, Layout};
use group_layout::{ClusterAnswer, ClusterEvent};
use group_types::{Key, ProcessId};
use memc_table::{Act, Op};
use std::alloc::Global;
use std::process::Abort;
use std::test::Fail;

const D0: ProcessId = ProcessId::DataNode(0);

const D1: ProcessId = ProcessId::DataNode(1);

const P0: ProcessId = ProcessId::ParityNode(0);

// An ask of a key of another group names that group, and counts nothing.
#[test]
fn names_the_group_of_a_key(rt: HostRuntime) -> Result<(), Fail> {
    let mut cluster = cluster(&rt, rt.alloc());
    let wrong = asked(&rt, rt.alloc(), &mut cluster, 1, "a");
    assert!(rt; wrong == Some(0));
    assert!(rt; asks(&rt, &cluster, 0) == 0);
    assert!(rt; asks(&rt, &cluster, 1) == 0);
    Ok(())
}

// Calls are counted in each group, and the log has them in the order in which they were logged.
#[test]
fn counts_positions_by_group(rt: HostRuntime) -> Result<(), Fail> {
    let mut cluster = cluster(&rt, rt.alloc());
    for (group, key) in [(1, "c"), (0, "a"), (1, "c")] {
        assert!(rt; asked(&rt, rt.alloc(), &mut cluster, group, key).is_none());
    }
    assert!(rt; is_logged(&cluster, 0, 1, 0));
    assert!(rt; is_logged(&cluster, 1, 0, 0));
    assert!(rt; is_logged(&cluster, 2, 1, 1));
    assert!(rt; cluster.log().get(3).is_none());
    Ok(())
}

// Node 2 has process 2 of group 0, which is its parity process, and process 1 of group 1.
#[test]
fn fails_one_process_of_each_group(rt: HostRuntime) -> Result<(), Fail> {
    let mut cluster = cluster(&rt, rt.alloc());
    assert!(rt; fails(&rt, &mut cluster, 2));
    assert!(rt; is_dead(&rt, &cluster, 0, P0));
    assert!(rt; !is_dead(&rt, &cluster, 0, D1));
    assert!(rt; is_dead(&rt, &cluster, 1, D1));
    assert!(rt; !is_dead(&rt, &cluster, 1, P0));
    assert!(rt; !fails(&rt, &mut cluster, 2));
    Ok(())
}

fn cluster(rt: &impl Abort, alloc: Global) -> Cluster {
    let layout = Layout::new(2, 4, 2, 1, 4, 16).expect(rt, "the layout is in range");
    Cluster::new(alloc, layout).expect(rt, "there is memory")
}

// Caller 7 gets a key at d0 of a group: the group that the key is of, where it is another.
fn asked(
    rt: &impl Abort,
    alloc: Global,
    cluster: &mut Cluster,
    group: u32,
    key: &str,
) -> Option<u32> {
    let key = Key::read(alloc, key.as_bytes()).expect(rt, "it is a key");
    let event = Event::Ask {
        caller: 7,
        op: Op::new(0, Act::Get { key }),
        at: D0,
    };
    other_group(&made(rt, cluster, ClusterEvent::InGroup { group, event }))
}

fn other_group(answer: &ClusterAnswer) -> Option<u32> {
    match answer {
        ClusterAnswer::WrongGroup(own) => Some(*own),
        _ => None,
    }
}

// Whether the failure of a node is its first.
fn fails(rt: &impl Abort, cluster: &mut Cluster, node: u32) -> bool {
    is_done(&made(rt, cluster, ClusterEvent::FailNode { node, keep: 0 }))
}

fn is_done(answer: &ClusterAnswer) -> bool {
    matches!(answer, ClusterAnswer::Done)
}

fn made(rt: &impl Abort, cluster: &mut Cluster, event: ClusterEvent) -> ClusterAnswer {
    assert!(rt; cluster.may_happen(&event));
    assert!(rt; cluster.has_few_events(&event));
    let out = cluster.step(&event).expect(rt, "there is memory");
    drop(event);
    out.answer
}

// Whether this entry of the log is of the group, and of the call of this number there.
fn is_logged(cluster: &Cluster, place: usize, group: u32, call: u64) -> bool {
    match cluster.log().get(place) {
        None => false,
        Some((of, entry)) => of == group && entry.call == call,
    }
}

// How often the caller asked in a group.
fn asks(rt: &impl Abort, cluster: &Cluster, group: u32) -> u64 {
    assert!(rt; group < cluster.groups());
    cluster.world(group).asks(7)
}

fn is_dead(rt: &impl Abort, cluster: &Cluster, group: u32, at: ProcessId) -> bool {
    assert!(rt; group < cluster.groups());
    let world = cluster.world(group);
    assert!(rt; world.has(at));
    world.is_dead(at)
}
