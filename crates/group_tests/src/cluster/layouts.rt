// Which fields of a layout are refused, in their order.
use group_cluster::{Layout, LayoutField};
use group_types::Field;
use std::test::Fail;

// Groups, nodes, k, m, blocks and the bytes of a block, and the field that is refused.
const REFUSED: [([u32; 6], LayoutField); 8] = [
    ([0, 0, 0, 0, 0, 0], LayoutField::Groups),
    ([17, 64, 2, 1, 4, 16], LayoutField::Groups),
    ([2, 2, 2, 1, 4, 16], LayoutField::Nodes),
    ([2, 65, 2, 1, 4, 16], LayoutField::Nodes),
    ([2, 3, 0, 1, 4, 16], LayoutField::Shape(Field::K)),
    ([2, 3, 2, 1, 4, 17], LayoutField::Shape(Field::Block)),
    ([2, 3, 2, 1, 0, 16], LayoutField::Shape(Field::Blocks)),
    // 11 * 3 spaces of 64 MiB are more than 2^31 bytes
    (
        [11, 3, 2, 1, 1024, 65_536],
        LayoutField::Shape(Field::Blocks),
    ),
];

#[test]
fn refuses_the_first_field(rt: HostRuntime) -> Result<(), Fail> {
    for ([groups, nodes, k, m, blocks, block], field) in REFUSED {
        match Layout::new(groups, nodes, k, m, blocks, block) {
            Ok(_) => assert!(rt; false),
            Err(bad) => assert_eq!(rt; bad.field, field),
        }
    }
    Ok(())
}

#[test]
fn takes_spaces_up_to_the_bound(rt: HostRuntime) -> Result<(), Fail> {
    // 16 * 2 spaces of 64 MiB are 2^31 bytes
    assert!(rt; Layout::new(16, 2, 1, 1, 1024, 65_536).is_ok());
    Ok(())
}
