//! The worked rows of the group's rules, as theorems: each script, played line by line over the pure machine, writes
//! exactly the row's transcript. Each function is one row; its contract says it. What a line does and what is written for
//! it is left to `scenario_run`, which has the transcript of every script.
#![tactic(auto)]

ghost use Rattle.group_rows.specs.Tables.{SmallestScript, FullSpace, TouchInFullSpace, TableCases, Expiry, Numerals};
ghost use Rattle.group_rows.specs.Updates.{FullWindow, OldRunNotFree, PendingUpdate, AllParitiesFail, CutBefore, CutBehind};
ghost use Rattle.group_rows.specs.Losses.{CodeByHand, TouchWithoutBlock, SettledUnsent, MarkedRow};
ghost use Rattle.group_rows.specs.Takeovers.{PartialAdoption, FateGone, FateCutBefore, FateCutBehind};
ghost use Rattle.group_rows.specs.TwoLost.{TwoLost, SecondLoss};

/// The smallest script.
#[tactic(auto, using(crate::proofs::Tables::smallest_script))]
pub fn row_smallest_script()
    ensures { SmallestScript }
{}

/// A value of no bytes in a full space.
#[tactic(auto, using(crate::proofs::Tables::full_space))]
pub fn row_full_space()
    ensures { FullSpace }
{}

/// A touch in a full space.
#[tactic(auto, using(crate::proofs::Tables::touch_in_full_space))]
pub fn row_touch_in_full_space()
    ensures { TouchInFullSpace }
{}

/// The table's cases.
#[tactic(auto, using(crate::proofs::Tables::table_cases))]
pub fn row_table_cases()
    ensures { TableCases }
{}

/// Expiry and touch.
#[tactic(auto, using(crate::proofs::Tables::expiry))]
pub fn row_expiry()
    ensures { Expiry }
{}

/// Append, prepend, incr and decr.
pub fn row_numerals()
    ensures { Numerals }
{}

/// The old run is free only once the update that frees it is settled.
#[tactic(auto, using(crate::proofs::Updates::old_run_not_free))]
pub fn row_old_run_not_free()
    ensures { OldRunNotFree }
{}

/// An unfinished update on the key.
#[tactic(auto, using(crate::proofs::Updates::pending_update))]
pub fn row_pending_update()
    ensures { PendingUpdate }
{}

/// 256 updates wait, and no more.
pub fn row_full_window()
    ensures { FullWindow }
{}

/// All parity processes fail, and then one process more.
#[tactic(auto, using(crate::proofs::Updates::all_parities_fail))]
pub fn row_all_parities_fail()
    ensures { AllParitiesFail }
{}

/// The cut of a link decides: the update is lost.
#[tactic(auto, using(crate::proofs::Updates::cut_before))]
pub fn row_cut_before()
    ensures { CutBefore }
{}

/// The cut of a link decides: the update lives.
#[tactic(auto, using(crate::proofs::Updates::cut_behind))]
pub fn row_cut_behind()
    ensures { CutBehind }
{}

/// The code by hand.
#[tactic(auto, using(crate::proofs::Losses::code_by_hand))]
pub fn row_code_by_hand()
    ensures { CodeByHand }
{}

/// A touch needs no block of a lost partition.
#[tactic(auto, using(crate::proofs::Losses::touch_without_block))]
pub fn row_touch_without_block()
    ensures { TouchWithoutBlock }
{}

/// An update is settled, its settling isn't sent, and its head fails.
#[tactic(auto, using(crate::proofs::Losses::settled_unsent))]
pub fn row_settled_unsent()
    ensures { SettledUnsent }
{}

/// An update comes to a row between a mark and the end of the session.
#[tactic(auto, using(crate::proofs::Losses::marked_row))]
pub fn row_marked_row()
    ensures { MarkedRow }
{}

/// A new head tells one process alone, and fails.
#[tactic(auto, using(crate::proofs::Takeovers::partial_adoption))]
pub fn row_partial_adoption()
    ensures { PartialAdoption }
{}

/// The fate of a call: gone.
#[tactic(auto, using(crate::proofs::Takeovers::fate_gone))]
pub fn row_fate_gone()
    ensures { FateGone }
{}

/// The fate of a call whose update was cut off.
#[tactic(auto, using(crate::proofs::Takeovers::fate_cut_before))]
pub fn row_fate_cut_before()
    ensures { FateCutBefore }
{}

/// The fate of a call whose update lived.
#[tactic(auto, using(crate::proofs::Takeovers::fate_cut_behind))]
pub fn row_fate_cut_behind()
    ensures { FateCutBehind }
{}

/// Two data processes are lost.
#[tactic(auto, using(crate::proofs::TwoLost::two_lost))]
pub fn row_two_lost()
    ensures { TwoLost }
{}

/// A second loss during an open session.
#[tactic(auto, using(crate::proofs::TwoLost::second_loss))]
pub fn row_second_loss()
    ensures { SecondLoss }
{}
