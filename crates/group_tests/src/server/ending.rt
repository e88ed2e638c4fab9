// How serving ends.
use crate::server::stages::{STORED, STORES, listener, serve};
use group_types::Shape;
use node_worker::OpenGate;
use std::test::Fail;

#[test]
fn stops_at_its_number_of_connections(rt: HostRuntime) -> Result<(), Fail> {
    let mut clients = listener(rt.alloc(), &[STORES, STORES, STORES], &[])?;
    let shape = Shape::new(1, 0, 16, 1024)?;
    let served = serve(&rt, rt.alloc(), &mut clients, &OpenGate, shape, 3, 2);
    assert_eq!(rt; served, Ok(2));
    for (connection, held) in [(1, STORED), (2, STORED), (3, b"".as_slice())] {
        assert_eq!(rt; clients.held(rt.alloc(), connection)?.as_slice(), held);
    }
    let served = serve(&rt, rt.alloc(), &mut clients, &OpenGate, shape, 66, 0);
    assert_eq!(rt; served, Ok(1));
    assert_eq!(rt; clients.held(rt.alloc(), 3)?.as_slice(), STORED);
    Ok(())
}
