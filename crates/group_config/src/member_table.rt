use crate::member_entry::MemberEntry;
use std::alloc::{AllocError, Global};
use std::marker::Model;

/// The members of a group in the order of its processes, those of data first. Contracts see them as a list.
#[derive(Drop)]
pub struct MemberTable {
    entries: Vec<MemberEntry>,
}

impl Model for MemberTable {
    ghost use Rattle.std.specs.Prelude.{List};
    ghost use Rattle.group_config.specs.declared.member_entry.MemberEntry.{MemberEntry};

    ghost Value = { List MemberEntry };

    ghost view = { λ t. t.entries.items };
}

impl MemberTable {
    ghost use Rattle.std.specs.Prelude.{◌≡◌, ◌++◌, ◌∷◌, [], OnOk};

    /// No member yet.
    pub(crate) fn new(alloc: Global) -> MemberTable
        ensures { result ≡ [] }
    {
        MemberTable {
            entries: Vec::new(alloc),
        }
    }

    /// One more behind the others.
    pub(crate) fn push(&mut self, entry: MemberEntry) -> Result<(), AllocError>
        ensures { OnOk result (self.new ≡ self.old ++ entry ∷ []) }
    {
        self.entries.push(entry)?;
        Ok(())
    }

    /// The members.
    pub fn entries(&self) -> &[MemberEntry]
        ensures { result.now ≡ self.now }
    {
        self.entries.as_slice()
    }
}
