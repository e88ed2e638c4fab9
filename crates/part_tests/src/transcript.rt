// What is written of an entry whose value would be too long.
use crate::fixtures::same;
use group_calls::Entry;
use group_types::{Key, Payload};
use memc_table::{Act, Op, Reply};
use scenario_text::write_entry::write_entry;
use std::alloc::Global;
use std::process::Abort;

fn prepend(rt: &impl Abort, alloc: Global) -> Act {
    let key = Key::read(alloc, b"a").expect(rt, "a key");
    let value = Payload::of(alloc, &[0x0A, 0xFF]).expect(rt, "a value");
    Act::Prepend { key, value }
}

#[test]
fn an_entry_tells_its_words(rt: HostRuntime) {
    let entry = Entry {
        caller: 1,
        call: 20,
        op: Op::new(0, prepend(&rt, rt.alloc())),
        reply: Reply::TooLarge,
    };
    let written = write_entry(rt.alloc(), &entry).expect(&rt, "a line");
    same(
        &rt,
        written.as_slice(),
        b"= 1.20 prepend a 0aff too_large".as_slice(),
    );
}
