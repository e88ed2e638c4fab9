use crate::member_key::MemberKey;
use std::fmt;

/// What is wrong in settings of a carry.
#[derive(Clone, Copy, Debug, PartialEq, Eq)]
pub enum CarryKey {
    /// The text is no TOML.
    Syntax,
    /// How many data processes there are.
    K,
    /// The members of the old group, or a key of one.
    From(MemberKey),
    /// The members of the new group, or a key of one.
    To(MemberKey),
    /// How many connections there are.
    Lanes,
    /// Another key.
    Unknown,
}

impl CarryKey {
    /// What is allowed there, for a person.
    pub fn allowed(self) -> &'static str {
        match self {
            CarryKey::Syntax => "settings are TOML: lines of a key, = and a value, and tables",
            CarryKey::K => "k is the number of data processes, 1 to 16, the same of both groups",
            CarryKey::From(MemberKey::Members) => {
                "from is the tables members of the old group's settings, of at least k members that may live, with names that differ"
            }
            CarryKey::To(MemberKey::Members) => {
                "to is the tables members of the new group's settings, of at least k members, with names that differ"
            }
            CarryKey::From(key) | CarryKey::To(key) => key.allowed(),
            CarryKey::Lanes => "lanes is 1 to 64 connections, and 8 where it is left out",
            CarryKey::Unknown => "the keys are k, from, to and lanes",
        }
    }
}

impl fmt::Display for CarryKey {
    fn fmt<W: fmt::Write>(&self, f: &mut fmt::Formatter<W>) -> fmt::Result {
        match self {
            CarryKey::Syntax => f.write_str("syntax"),
            CarryKey::K => f.write_str("k"),
            CarryKey::From(key) => write_of(f, "from", *key),
            CarryKey::To(key) => write_of(f, "to", *key),
            CarryKey::Lanes => f.write_str("lanes"),
            CarryKey::Unknown => f.write_str("unknown"),
        }
    }
}

// A list of members, or a key of one of them.
fn write_of<W: fmt::Write>(f: &mut fmt::Formatter<W>, list: &str, key: MemberKey) -> fmt::Result {
    f.write_str(list)?;
    f.write_str(match key {
        MemberKey::MemberName => ".name",
        MemberKey::MemberLink => ".link",
        MemberKey::MemberClient => ".client",
        MemberKey::MemberControl => ".control",
        MemberKey::MemberUnknown => ".unknown",
        _ => "",
    })
}
