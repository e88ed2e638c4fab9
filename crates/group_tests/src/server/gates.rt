// Two connections that need each other.
use crate::server::stages::{STORED, STORES, listener, serve};
use group_types::Shape;
use node_worker::Gate;
use std::sync::atomic::{AtomicBool, Ordering};
use std::test::Fail;
use std::thread;

/// How often a gate that waits looks before it gives up.
const TURNS: u32 = 1_000_000_000;

/// A gate that holds connection 1 until connection 2 was served.
#[derive(Drop)]
struct SecondFirst {
    served: AtomicBool,
    gave_up: AtomicBool,
}

impl SecondFirst {
    fn wait(&self) {
        'turns: for _ in 0..TURNS {
            if self.served.load(Ordering::SeqCst) {
                return;
            }
            thread::yield_now();
        }
        self.gave_up.store(true, Ordering::SeqCst);
    }
}

impl Gate for SecondFirst {
    fn before(&self, connection: u64) {
        if connection == 1 {
            self.wait();
        }
    }

    fn after(&self, connection: u64) {
        if connection == 2 {
            self.served.store(true, Ordering::SeqCst);
        }
    }
}

#[test]
fn serves_beside_each_other(rt: HostRuntime) -> Result<(), Fail> {
    for seats in [3, 4] {
        let mut clients = listener(rt.alloc(), &[STORES, STORES], &[])?;
        let gate = SecondFirst {
            served: AtomicBool::new(false),
            gave_up: AtomicBool::new(false),
        };
        let shape = Shape::new(1, 0, 16, 1024)?;
        let served = serve(&rt, rt.alloc(), &mut clients, &gate, shape, seats, 2);
        assert_eq!(rt; served, Ok(2));
        assert!(rt; !gate.gave_up.load(Ordering::SeqCst), "with {seats} seats");
        for connection in [1, 2] {
            assert_eq!(rt; clients.held(rt.alloc(), connection)?.as_slice(), STORED);
        }
    }
    Ok(())
}
