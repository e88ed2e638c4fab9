use group_config::{ConfigFault, Settings, find_served, read_settings};
use std::alloc::{AllocError, Global};

/// What the settings of a served group say, or the key that is refused and what is wrong there.
pub(crate) fn told(alloc: Global, text: &[u8]) -> Result<String, AllocError> {
    match read_settings(alloc, text) {
        Ok(settings) => told_settings(alloc, &settings),
        Err(ConfigFault::BadConfig { key }) => {
            let finding = find_served(alloc, text, key)?;
            format!(in alloc; "{key}: {finding} ({})", key.allowed())
        }
        Err(ConfigFault::Want) => Err(AllocError),
    }
}

fn told_settings(alloc: Global, settings: &Settings) -> Result<String, AllocError> {
    let shape = settings.shape;
    let address = settings.address.as_str();
    let (k, m, blocks, block) = (shape.k(), shape.m(), shape.blocks(), shape.block());
    let (workers, connections, control) = (
        settings.workers,
        settings.connections,
        settings.control,
    );
    format!(in alloc; "{k} {m} {blocks} {block}, {address}, {workers}, {connections}, {control}")
}
