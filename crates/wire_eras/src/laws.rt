ghost use Rattle.wire_eras.specs.Acknowledged.{AcknowledgedAreCarried, AcknowledgedKeep};
ghost use Rattle.wire_eras.specs.Carry.{ExptimesKeep};
ghost use Rattle.wire_eras.specs.Closed.{ClosedLogsNoChange};
ghost use Rattle.wire_eras.specs.Laws.{FirstLogIsLegal, LogsAreOne, SetsKeepItems, ShownIsOfTable, TablesGoOn};
ghost use Rattle.wire_eras.specs.Reading.{GetsTellTable, HeadsListItems, MissesHaveEnded, ValuesAreHeld};

/// The log of a group over machines is legal, so that another may go on from it.
#[tactic(auto, using(crate::proofs::Legal::first_log_is_legal))]
pub fn first_log_is_legal()
    ensures { FirstLogIsLegal }
{}

/// Where a later group began with a carry, the log over both is legal, with the base added to each cas number that
/// the later one tells. So a third may go on from it.
#[tactic(auto, using(crate::proofs::Legal::logs_are_one))]
pub fn logs_are_one()
    ensures { LogsAreOne }
{}

/// The table over both is that of the later group, with the bases added to counts and cas numbers: so what is read of
/// that group may be carried on into a third.
#[tactic(auto, using(crate::proofs::Legal::tables_go_on))]
pub fn tables_go_on()
    ensures { TablesGoOn }
{}

/// Each item that was set in a carry keeps flags, value and until, with a cas number above all earlier ones of its
/// partition.
#[tactic(auto, using(crate::proofs::Carrying::carries_keep))]
pub fn carries_keep()
    ensures { SetsKeepItems }
{}

/// Each reply that a client of the later group is shown, as it is told, is that of the one table for what the client
/// asked, at a place of the log over both.
pub fn shown_is_of_table()
    ensures { ShownIsOfTable }
{}

/// Where clients first begin sets of what a table holds alone, and each is acknowledged, the log begins with a carry,
/// whatever is done behind.
#[tactic(auto, using(crate::proofs::Acknowledged::acknowledged_are_carried))]
pub fn acknowledged_are_carried()
    ensures { AcknowledgedAreCarried }
{}

/// A group that is closed to changes and at rest logs no change any more, so that its table stays what it is,
/// whatever is read and whoever fails.
#[tactic(auto, using(crate::proofs::Closed::closed_logs_no_change))]
pub fn closed_logs_no_change()
    ensures { ClosedLogsNoChange }
{}

/// At rest the head of each partition lists its items, with flags, until and length, and its settled number is the
/// base.
pub fn heads_list_items()
    ensures { HeadsListItems }
{}

/// What a client of a group that is closed and at rest is shown of a call that it begins then is the reply of the
/// table.
pub fn gets_tell_table()
    ensures { GetsTellTable }
{}

/// A table's reply to a get with a value has the item that it holds.
#[tactic(auto, using(crate::proofs::Reading::values_are_held))]
pub fn values_are_held()
    ensures { ValuesAreHeld }
{}

/// Where it replies a miss, an item that it holds has ended.
#[tactic(auto, using(crate::proofs::Reading::misses_have_ended))]
pub fn misses_have_ended()
    ensures { MissesHaveEnded }
{}

/// Each item whose set is acknowledged keeps flags, value and until, with a cas number above all earlier ones of its
/// partition.
pub fn acknowledged_keep()
    ensures { AcknowledgedKeep }
{}

/// An until that is no offset is kept by the exptime that is its number, and none by 0, whenever the item is set.
#[tactic(auto, using(crate::proofs::Carrying::exptimes_keep))]
pub fn exptimes_keep()
    ensures { ExptimesKeep }
{}
