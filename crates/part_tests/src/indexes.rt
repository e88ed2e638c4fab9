// An index over keys.
use crate::fixtures::{key, same};
use group_types::Key;
use item_index::{Index, Slot};
use std::alloc::{AllocError, Global};
use std::process::Abort;

const SLOT: Slot = Slot {
    at: 3,
    len: 4,
    flags: 5,
    cas: 6,
    until: Some(7),
};

const LASTING: Slot = Slot {
    at: 3,
    len: 4,
    flags: 5,
    cas: 6,
    until: None,
};

// Both keys have entries, and that of the first was put twice.
fn both(alloc: Global, first: &Key, second: &Key) -> Result<Index<Key>, AllocError> {
    let mut index = Index::new(alloc);
    index.prepare(first)?;
    index.prepare(second)?;
    index.put(first, SLOT);
    index.put(second, SLOT);
    index.put(first, LASTING);
    Ok(index)
}

// The entries of both keys, how many are counted, and how many are listed.
fn shows(
    rt: &impl Abort,
    index: &Index<Key>,
    keys: [&Key; 2],
    entries: [Option<Slot>; 2],
    count: usize,
) {
    let found = [index.get(keys[0]), index.get(keys[1])];
    same(rt, found, entries);
    let listed = index.entries().expect(rt, "entries").as_slice().len();
    same(rt, (index.count(), listed), (count, count));
}

#[test]
fn keeps_the_entry_put_last_until_it_is_removed(rt: HostRuntime) {
    let first = key(&rt, rt.alloc(), b"a");
    let second = key(&rt, rt.alloc(), b"b");
    let mut index = both(rt.alloc(), &first, &second).expect(&rt, "an index");
    shows(
        &rt,
        &index,
        [&first, &second],
        [Some(LASTING), Some(SLOT)],
        2,
    );
    index.remove(&first);
    index.tidy(&first);
    shows(&rt, &index, [&first, &second], [None, Some(SLOT)], 1);
}
