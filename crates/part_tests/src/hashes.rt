// FNV-1a of 32 bits.
use crate::fixtures::same;
use group_types::hash::fnv1a_of;

#[test]
fn gives_the_published_hashes(rt: HostRuntime) {
    let hashes = [
        fnv1a_of(b"a"),
        fnv1a_of(b"b"),
        fnv1a_of(b"c"),
        fnv1a_of(b"g"),
    ];
    same(
        &rt,
        hashes,
        [0xE40C_292C, 0xE70C_2DE5, 0xE60C_2C52, 0xE20C_2606],
    );
}
