use group_types::ConfigKey;
use std::fmt;

/// A key of a member's settings, or what else may be wrong with their text.
#[derive(Clone, Copy, Debug, PartialEq, Eq)]
pub enum MemberKey {
    /// The text is no TOML.
    Syntax,
    Group,
    /// A key of the group's shape: k, m, block or blocks, as in `Settings`.
    Shape(ConfigKey),
    /// There are not as many members as processes, or one is no table.
    Members,
    /// The name of one of the members.
    MemberName,
    MemberLink,
    MemberClient,
    MemberControl,
    /// One of the members has a key that no member has.
    MemberUnknown,
    /// The name of this member.
    Name,
    Order,
    Patience,
    OneWord,
    /// How many groups the members make up.
    Groups,
    /// The base of each partition.
    Base,
    /// There is a key that settings don't have.
    Unknown,
    /// The table of how a member is watched isn't there, or is no table.
    Watch,
    WatchEtcd,
    WatchSeconds,
    /// That table has a key that it doesn't have.
    WatchUnknown,
}

impl MemberKey {
    /// What is allowed there, as a sentence for a person.
    pub fn allowed(self) -> &'static str {
        match self {
            MemberKey::Syntax => "settings are TOML in UTF-8, each key once",
            MemberKey::Group => "group is a text of 32 hexadecimal digits",
            MemberKey::Shape(key) => key.allowed(),
            MemberKey::Members =>
                "members is a list of k + m tables, those of data processes first",
            MemberKey::MemberName => {
                "the name of a member has 1 to 64 letters, digits, '-', '_' and '.', and no other member has it"
            }
            MemberKey::MemberLink => {
                "link is where other members reach a member, a text of 1 to 255 bytes, as \"10.0.0.1:11311\""
            }
            MemberKey::MemberClient => {
                "client is where clients reach a member, a text of 1 to 255 bytes, as \"10.0.0.1:11211\""
            }
            MemberKey::MemberControl => {
                "control is where an operator reaches a member, a text of 1 to 255 bytes, as \"127.0.0.1:11411\""
            }
            MemberKey::MemberUnknown => "the keys of a member are name, link, client and control",
            MemberKey::Name => {
                "name is the name of one of the members, and a word behind the command stands in its place"
            }
            MemberKey::Order =>
                "order is \"strict\" or \"keys\", and \"strict\" where it is left out",
            MemberKey::Patience => "patience is 1 to 3600 seconds, and 10 where it is left out",
            MemberKey::OneWord => {
                "one_word is true or false, and false where it is left out: where k is not above m it has to be true, \
                since two words that differ could split the group there"
            }
            MemberKey::Groups => "groups is 1 to 16, and 1 where it is left out",
            MemberKey::Base => {
                "base is a list of k numbers of 0 to 2^62 for each group, one for each partition, and all 0 where it is left out"
            }
            MemberKey::Unknown => {
                "the keys are group, k, m, blocks, block, members, name, order, patience, one_word, groups, base and watch"
            }
            MemberKey::Watch => "watch is a table of the keys etcd and seconds",
            MemberKey::WatchEtcd => {
                "etcd is a list of 1 to 16 addresses of etcd, each a text of 1 to 255 bytes, as \"10.0.0.1:2379\""
            }
            MemberKey::WatchSeconds => "seconds is 2 to 60, and 3 where it is left out",
            MemberKey::WatchUnknown => "the keys of watch are etcd and seconds",
        }
    }
}

impl fmt::Display for MemberKey {
    fn fmt<W: fmt::Write>(&self, f: &mut fmt::Formatter<W>) -> fmt::Result {
        match self {
            MemberKey::Shape(key) => key.fmt(f),
            MemberKey::Syntax => f.write_str("syntax"),
            MemberKey::Group => f.write_str("group"),
            MemberKey::Members => f.write_str("members"),
            MemberKey::MemberName => f.write_str("members.name"),
            MemberKey::MemberLink => f.write_str("members.link"),
            MemberKey::MemberClient => f.write_str("members.client"),
            MemberKey::MemberControl => f.write_str("members.control"),
            MemberKey::MemberUnknown => f.write_str("members.unknown"),
            MemberKey::Name => f.write_str("name"),
            MemberKey::Order => f.write_str("order"),
            MemberKey::Patience => f.write_str("patience"),
            MemberKey::OneWord => f.write_str("one_word"),
            MemberKey::Groups => f.write_str("groups"),
            MemberKey::Base => f.write_str("base"),
            MemberKey::Unknown => f.write_str("unknown"),
            MemberKey::Watch => f.write_str("watch"),
            MemberKey::WatchEtcd => f.write_str("watch.etcd"),
            MemberKey::WatchSeconds => f.write_str("watch.seconds"),
            MemberKey::WatchUnknown => f.write_str("watch.unknown"),
        }
    }
}
