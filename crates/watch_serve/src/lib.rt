//! Watching a member of a group beside its program: says in etcd that it lives, judges by etcd who is dead, and tells the
//! member so. The contract says that each call is safe and each turn ends. What etcd and the system's streams bring, and
//! when, is left to tests.
#![tactic(auto)]

mod asking;
mod changes;
mod deciding;
mod exchange;
mod hearing;
mod keys;
mod lease;
mod looking;
mod member_wire;
mod names;
mod net_watcher;
mod report;
mod saying;
mod trust;
mod turning;
mod watching;
mod wire;

pub use net_watcher::NetWatcher;
pub use report::WatchReport;
