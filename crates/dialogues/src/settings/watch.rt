use group_config::{Address, MemberFault, WatchSettings, find_member, read_watch_settings};
use std::alloc::{AllocError, Global};

/// How settings say that a member is watched, or the key that is refused and what is wrong there.
pub(crate) fn told(alloc: Global, text: &[u8]) -> Result<String, AllocError> {
    match read_watch_settings(alloc, text) {
        Ok(settings) => told_settings(alloc, &settings),
        Err(MemberFault::BadKey { key }) => {
            let finding = find_member(alloc, text, None, key)?;
            format!(in alloc; "{key}: {finding} ({})", key.allowed())
        }
        Err(MemberFault::Want) => Err(AllocError),
    }
}

fn told_settings(alloc: Global, settings: &WatchSettings) -> Result<String, AllocError> {
    let addresses = addresses_of(alloc, settings.etcd.as_slice())?;
    format!(in alloc; "{}{addresses}", settings.seconds)
}

// The addresses, a space in front of each.
fn addresses_of(alloc: Global, addresses: &[Address]) -> Result<String, AllocError> {
    let mut told = String::new(alloc);
    for address in addresses {
        told.push(' ')?;
        told.push_str(address.as_str())?;
    }
    Ok(told)
}
