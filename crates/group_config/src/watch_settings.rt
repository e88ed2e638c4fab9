use crate::address_list::AddressList;

/// How a member is watched.
#[derive(Drop)]
pub struct WatchSettings {
    /// Where etcd is, tried in this order: 1 to 16 addresses.
    pub etcd: AddressList,
    /// For how many seconds a lease lasts, 2 to 60.
    pub seconds: u32,
}
