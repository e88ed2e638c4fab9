//! The settings of a served group: a TOML text of at most 65,536 bytes, all keys at the top. The contract of
//! `read_settings` says which settings a text gives, or which key is the first that is wrong, in the order k, m,
//! block, blocks, address, workers, connections, control, and then any other key. What an address names is left to
//! the listener.
#![tactic(auto)]

mod address;
mod address_list;
mod base_list;
mod base_values;
mod carry_fault;
mod carry_key;
mod carry_reading;
mod carry_settings;
mod fault;
mod finding;
mod finding_carry;
mod finding_entry;
mod finding_member;
mod finding_served;
mod known;
mod member_entries;
mod member_entry;
mod member_fault;
mod member_key;
mod member_name;
mod member_reading;
mod member_settings;
mod member_table;
mod member_values;
mod names;
mod reading;
mod settings;
mod shape;
mod text;
mod values;
mod watch_reading;
mod watch_settings;
mod watch_values;

pub use address::Address;
pub use address_list::AddressList;
pub use base_list::BaseList;
pub use carry_fault::CarryKeyFault;
pub use carry_key::CarryKey;
pub use carry_reading::read_carry_settings;
pub use carry_settings::CarrySettings;
pub use fault::{ConfigFault, TextFault};
pub use finding::Finding;
pub use finding_carry::find_carry;
pub use finding_member::find_member;
pub use finding_served::find_served;
pub use member_entry::MemberEntry;
pub use member_fault::MemberFault;
pub use member_key::MemberKey;
pub use member_name::MemberName;
pub use member_reading::read_member_settings;
pub use member_settings::{CallOrder, MemberSettings};
pub use member_table::MemberTable;
pub use reading::read_settings;
pub use settings::Settings;
pub use text::read_text;
pub use watch_reading::read_watch_settings;
pub use watch_settings::WatchSettings;
