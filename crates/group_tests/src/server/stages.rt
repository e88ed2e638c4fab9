// Groups to serve, and what their clients say.
ghost use Rattle.std.specs.Prelude.{◌≡◌, ◌≤◌, IfOk};

use edge_io::{FixedClock, MemoryListener};
use group_config::{ConfigFault, Settings, read_settings};
use group_server::{Silent, Terms, serve_group};
use group_stage::Stage;
use group_types::Shape;
use node_worker::{Gate, ServeFault};
use std::alloc::{AllocError, Global};
use std::sync::Wait;
use std::thread::Threads;

/// What a client says that stores a value and reads it back, and what it is answered.
pub const STORES: &[u8] = b"set a 0 0 1\r\nA\r\nget a\r\nquit\r\n";

pub const STORED: &[u8] = b"STORED\r\nVALUE a 0 1\r\nA\r\nEND\r\n";

/// A listener to which these clients come, whose calls with these numbers fail.
pub fn listener(
    alloc: Global,
    said: &[&[u8]],
    failing: &[u64],
) -> Result<MemoryListener, AllocError> {
    let mut clients = Vec::new(alloc);
    'clients: for bytes in said {
        clients.push(Vec::from_slice(alloc, bytes)?)?;
    }
    MemoryListener::new(alloc, clients, failing)
}

/// Settings of a group of this shape with so many workers, which is served until so many connections were accepted.
pub fn settings_of(
    alloc: Global,
    shape: Shape,
    workers: u32,
    connections: u64,
) -> Result<Settings, ConfigFault>
    ensures shape { IfOk result (λ s. s.shape ≡ shape) }
    ensures workers { IfOk result (λ s. s.workers ≡ workers) }
{
    let mut settings = read_settings(
        alloc,
        b"k = 1\nm = 0\nblocks = 16\nblock = 16\naddress = 'here'\n",
    )?;
    settings.shape = shape;
    settings.workers = workers;
    settings.connections = connections;
    Ok(settings)
}

/// A group of this shape with so many seats is served to its clients.
pub fn serve<R: Threads + Wait + Sync, G: Gate>(
    rt: &R,
    alloc: Global,
    listener: &mut MemoryListener,
    gate: &G,
    shape: Shape,
    seats: u32,
    connections: u64,
) -> Result<u64, ServeFault>
    requires some { 3 ≤ seats }
    requires few { seats ≤ 66 }
{
    let Ok(settings) = settings_of(alloc, shape, seats - 2, connections) else {
        return Err(ServeFault::Want);
    };
    let Ok((stage, all)) = Stage::new(alloc, shape, seats) else {
        return Err(ServeFault::Want);
    };
    let terms = Terms {
        settings: &settings,
        gate,
        notice: &Silent,
        clock: &FixedClock::new(0),
    };
    serve_group(rt, alloc, listener, &stage, all, &terms)
}
