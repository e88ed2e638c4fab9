// A log of updates, which are here a number and a key.
use crate::fixtures::same;
use request_log::{Log, Numbering, Taken};

struct Steps;

impl Numbering for Steps {
    type Item = (u64, u32);

    type Key = u32;

    ghost number_of = { λ step. step.0 };

    ghost key_of = { λ step. step.1 };

    fn number(item: &(u64, u32)) -> u64 {
        item.0
    }

    fn key(item: &(u64, u32)) -> &u32 {
        &item.1
    }
}

#[test]
fn adopts_what_is_above_the_applied_number(rt: HostRuntime) {
    let mut log = Log::<Steps>::new(rt.alloc());
    log.reserve(3).expect(&rt, "room");
    log.push((1, 7));
    log.push((2, 8));
    log.push((3, 7));
    same(&rt, log.holds_key(&7), Some(3));
    assert_eq!(rt; log.apply_next(), Some((1, 7)));
    let list = vec![in rt.alloc(); (1, 7), (2, 9)].expect(&rt, "a list");
    let handed = log.adopt(0, Taken::new(list));
    same(
        &rt,
        (handed.as_slice().len(), log.applied(), log.last()),
        (2, 1, 2),
    );
    same(
        &rt,
        [log.get(2).copied(), log.get(3).copied()],
        [Some((2, 9)), None],
    );
}
