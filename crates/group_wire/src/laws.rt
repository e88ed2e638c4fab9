ghost use Rattle.group_wire.specs.Appending.{CallsAppendAlike, MessagesAppendAlike};
ghost use Rattle.group_wire.specs.Composition.{MisfitsNeverCome, NoticesFit, PositionsAlways, RunsCompose};
ghost use Rattle.group_wire.specs.FromWhom.{CallersAreTheirs};
ghost use Rattle.group_wire.specs.GoingOn.{AnsweredCanBeShown, NamedCanBeTaken, ToldCanBeShown};
ghost use Rattle.group_wire.specs.Laws.{BarrierAlways, FewAreNamed, MoreDataThanParity, PermitsExactly, ShownByLiving};
ghost use Rattle.group_wire.specs.NoMisfits.{NoMisfitsAtAll};
ghost use Rattle.group_wire.specs.Once.{AskedOnce, ChangesOnce, ShownOnce};
ghost use Rattle.group_wire.specs.Shown.{ShownIsLogged, ShownIsMade};
ghost use Rattle.group_wire.specs.Sizes.{SizesAreCounts};

/// At most m members have failed, and each member that hasn't failed has cut all that have.
pub fn barrier_always()
    ensures { BarrierAlways }
{}

/// Right after a permit at a member that hasn't failed, those who have failed are exactly the permitted set.
pub fn permits_exactly()
    ensures { PermitsExactly }
{}

/// Where no two permitted sets together hold all members, an answer is shown only by a ping that its gateway sent
/// before it failed.
pub fn shown_by_living()
    ensures { ShownByLiving }
{}

/// No two permitted sets together hold all members where there are more data processes than parity processes.
pub fn more_data_than_parity()
    ensures { MoreDataThanParity }
{}

/// Nor do two where all that are ever cut are among m.
pub fn few_are_named()
    ensures { FewAreNamed }
{}

/// A caller whose gateway hasn't failed has asked as often as its gateway says, or once less while its last ask isn't
/// treated.
pub fn positions_always()
    ensures { PositionsAlways }
{}

/// What the members do that haven't failed composes to a run of the machine, with the answers that they gave; those who
/// haven't failed are its processes, and the wires between them its links. So the whole headline holds of it.
pub fn runs_compose()
    ensures { RunsCompose }
{}

/// Each message that comes to a member that hasn't failed fits what its process holds.
pub fn misfits_never_come()
    ensures { MisfitsNeverCome }
{}

/// So does each notice that such a member may take.
pub fn notices_fit()
    ensures { NoticesFit }
{}

/// Where no two permitted sets together hold all members, all that a client is shown is the answer of an event of the
/// machine, of that call.
pub fn shown_is_made()
    ensures { ShownIsMade }
{}

/// There each reply that is shown is that of the call's entry in the machine's log, for what the client asked, logged
/// since the call began.
pub fn shown_is_logged()
    ensures { ShownIsLogged }
{}

/// What a node's step for a call appends to its links, answers and settles depends on its process alone, not on what stands
/// in its links.
pub fn calls_append_alike()
    ensures { CallsAppendAlike }
{}

/// Nor does what it makes of a message, but that the link to a process whose death is told is emptied.
pub fn messages_append_alike()
    ensures { MessagesAppendAlike }
{}

/// Where only processes of the group are among those that a member keeps as dead, their count is the size of their set.
pub fn sizes_are_counts()
    ensures { SizesAreCounts }
{}

/// All that a member tests of a message holds of each that comes to a member that hasn't failed, and no notice stands on a
/// wire that it reads.
pub fn no_misfits_at_all()
    ensures { NoMisfitsAtAll }
{}

/// A request on a wire names a caller whose gateway its sender is, and an answer one whose gateway its receiver is; a request
/// that was read names a caller of a member.
pub fn callers_are_theirs()
    ensures { CallersAreTheirs }
{}

/// Of the positions under which an open call was asked, at a gateway that hasn't failed, at most the last has an accepted
/// entry in the log, and none has where the call is to be asked again.
pub fn asked_once()
    ensures { AskedOnce }
{}

/// Of the positions under which a call was asked at most one ever has an accepted entry, also when the call has ended.
pub fn changes_once()
    ensures { ChangesOnce }
{}

/// Where no two permitted sets together hold all members: of the positions of a call that is shown only the last ever has
/// an accepted entry, and what is shown is then its reply.
pub fn shown_once()
    ensures { ShownOnce }
{}

/// Where all that are ever cut are among at most m, the others can take the deaths of all of these, with no call
/// changed.
pub fn named_can_be_taken()
    ensures { NamedCanBeTaken }
{}

/// There a call that its gateway was told the answer of can be shown to its client, where the gateway isn't named.
pub fn told_can_be_shown()
    ensures { ToldCanBeShown }
{}

/// And where all named deaths are taken, a call that is to be asked can be shown as ended by the answer that a member which
/// isn't named would give it at once.
pub fn answered_can_be_shown()
    ensures { AnsweredCanBeShown }
{}
