ghost use Rattle.group_eras.specs.Moments.{CarriesAreShort, CountsAreLow, ItemsAreGot, LoadsAreFew, ReadsMayCome, SetsMayCome, UntilsAreLow};
ghost use Rattle.group_eras.specs.Numbers.{OthersTellNone, RepliesAreLogged, TicketsAreNew};
ghost use Rattle.group_eras.specs.Promise.{CarriesKeep, ErasAreRuns, LogsOnlyGrow};
ghost use Rattle.group_eras.specs.Worked.{LogIsAsWorked, MayBeWorked};

/// Whatever happens over eras, the log of all is legal, and the current era is a run of its own, with the whole
/// headline, whose log is told from the bases.
pub fn eras_are_runs()
    ensures { ErasAreRuns }
{}

/// A carry leaves a group of which no process is dead, and each item that lives at some moment is what it was, with a
/// cas number above all earlier ones of its partition. No other item that lives is there.
pub fn carries_keep()
    ensures { CarriesKeep }
{}

/// Whatever is done, the log over all eras keeps its entries, and more come behind them.
pub fn logs_only_grow()
    ensures { LogsOnlyGrow }
{}

/// Each get of a carry has its item in the end, through lost blocks where that is needed.
pub fn items_are_got()
    ensures { ItemsAreGot }
{}

/// The events that read the old group may come.
pub fn reads_may_come()
    ensures { ReadsMayCome }
{}

/// The events that set the new group up may come.
pub fn sets_may_come()
    ensures { SetsMayCome }
{}

/// An item's until is one that an exptime of 64 bits can ask for.
pub fn untils_are_low()
    ensures { UntilsAreLow }
{}

/// No partition has more updates in the era's log than events were made.
pub fn counts_are_low()
    ensures { CountsAreLow }
{}

/// No more items are carried than events were made.
pub fn loads_are_few()
    ensures { LoadsAreFew }
{}

/// Where fewer than 2^58 events were made before, a carry makes fewer than 2^62 in each of the two groups.
pub fn carries_are_short()
    ensures { CarriesAreShort }
{}

/// Only an ask is answered with numbers of a partition, so that no base is left out.
pub fn others_tell_none()
    ensures { OthersTellNone }
{}

/// The reply to an ask, as it is told, is that of its entry in the log over all eras.
pub fn replies_are_logged()
    ensures { RepliesAreLogged }
{}

/// A ticket's number is above those of all updates that the log over all eras has of its partition.
pub fn tickets_are_new()
    ensures { TicketsAreNew }
{}

/// A carry over the loss of a process, worked out: all of it may happen.
pub fn may_be_worked()
    ensures { MayBeWorked }
{}

/// And it leaves this log.
pub fn log_is_as_worked()
    ensures { LogIsAsWorked }
{}
