ghost use Rattle.std.specs.Prelude.{◌≡◌};

use crate::update::Update;
use std::marker::Model;

/// Updates in the order of their numbers.
#[derive(Debug, Drop)]
pub struct UpdateList {
    updates: Vec<Update>,
}

impl Model for UpdateList {
    ghost use Rattle.std.specs.Prelude.{List};
    ghost use Rattle.group_message.specs.declared.update.Update.{Update};

    ghost Value = { List Update };

    ghost view = { λ list. list.updates.items };
}

impl UpdateList {
    /// The updates, in order.
    pub fn updates(&self) -> &[Update]
        ensures { result.now ≡ self.now }
    {
        &self.updates
    }
}

impl From<Vec<Update>> for UpdateList {
    ghost from_gives = { λ updates list. list ≡ updates.items };

    fn from(updates: Vec<Update>) -> UpdateList {
        UpdateList { updates }
    }
}

impl From<UpdateList> for Vec<Update> {
    ghost from_gives = { λ list updates. updates.items ≡ list };

    fn from(list: UpdateList) -> Vec<Update> {
        list.updates
    }
}

/// Numbers of parity processes: the rows of a block session.
#[derive(Debug, Drop)]
pub struct RowList {
    rows: Vec<u32>,
}

impl Model for RowList {
    ghost use Rattle.std.specs.Prelude.{ℕ, List};

    ghost Value = { List ℕ };

    ghost view = { λ list. list.rows.items };
}

impl RowList {
    /// The numbers, in order.
    pub fn rows(&self) -> &[u32]
        ensures { result.now ≡ self.now }
    {
        &self.rows
    }
}

impl From<Vec<u32>> for RowList {
    ghost from_gives = { λ rows list. list ≡ rows.items };

    fn from(rows: Vec<u32>) -> RowList {
        RowList { rows }
    }
}
