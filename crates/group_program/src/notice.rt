use group_server::Settings;
use group_types::ProcessId;
use std::alloc::{AllocError, Global};

/// What a person is told of a group that is served by these settings: its shape, its address, its workers, how many bytes
/// the spaces of its processes may come to hold, and whether its clients may let processes fail.
pub fn notice_of(alloc: Global, settings: &Settings) -> Result<String, AllocError> {
    let shape = settings.shape;
    let (k, m, workers) = (shape.k(), shape.m(), settings.workers);
    let address = settings.address.as_str();
    let bytes = space_of(k + m, shape.blocks(), shape.block());
    let control = if settings.control { "on" } else { "off" };
    format!(in alloc;
        "{k} data and {m} parity processes serve at {address} with {workers} workers\n\
        their spaces may come to hold {bytes} bytes, and control is {control}\n"
    )
}

/// How many bytes the spaces of so many processes have.
fn space_of(processes: u32, blocks: u32, block: u32) -> u64 {
    u64::from(processes)
        .saturating_mul(u64::from(blocks))
        .saturating_mul(u64::from(block))
}

/// What a person is told of a process that a client let fail, which is this one of all that are lost of a group that can
/// lose so many.
pub fn loss_of(alloc: Global, at: ProcessId, lost: u64, most: u32) -> Result<String, AllocError> {
    let name = name_of(alloc, at)?;
    let told = format!(in alloc;
        "a client let {name} fail; lost: {lost} of the {most} that the group can lose"
    )?;
    if u64::from(most) < lost {
        return format!(in alloc; "{told}, so it is down");
    }
    Ok(told)
}

fn name_of(alloc: Global, at: ProcessId) -> Result<String, AllocError> {
    match at {
        ProcessId::DataNode(d) => format!(in alloc; "d{d}"),
        ProcessId::ParityNode(i) => format!(in alloc; "p{i}"),
    }
}
