ghost use Rattle.std.specs.Prelude.{◌≡◌, length, map};
ghost use Rattle.run_verify.specs.Shadows.{AllFollow};

use crate::call::Call;
use crate::change::Change;
use crate::shadow::Shadow;
use memc_table::Table;
use std::alloc::Global;

/// What the lines so far have told.
#[derive(Drop)]
pub(crate) struct Account {
    pub(crate) alloc: Global,
    pub(crate) calls: Vec<Vec<Call>>,
    pub(crate) table: Table,
    pub(crate) changes: Vec<Vec<Change>>,
    pub(crate) entries: u64,
    pub(crate) shown: u64,
    pub(crate) shadows: Vec<Shadow>,
    ghost callers: { length calls.items ≡ 256 },
    ghost follow: { AllFollow (map (λ v. v.items) changes.items) shadows.items },
}
