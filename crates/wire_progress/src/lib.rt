//! What members can still bring to an end, over the laws that the machine's draining ends. Where all that are ever cut are
//! among at most m, the members that go on can receive all that is on its way between them, so that nothing is unfinished,
//! and every open call of theirs can be shown.
#![tactic(auto)]

ghost use Rattle.wire_progress.specs.Emptying.{MembersCanBeDrained};
ghost use Rattle.wire_progress.specs.Showing.{CallsCanBeShown};

/// Where all that are ever cut are among at most m, the others can take the deaths of all of these and then receive all
/// that is on its way between them, with no call changed. Nothing is unfinished then, and a call that is asked of the data
/// process of its key, if that isn't named, gets a reply, want of space or a ticket.
pub fn members_can_be_drained()
    ensures { MembersCanBeDrained }
{}

/// Where all that are ever cut are among at most m, every open call whose gateway isn't named can be shown to its client, as
/// ended by a reply or by want of space, whatever it asks and wherever it stands.
pub fn calls_can_be_shown()
    ensures { CallsCanBeShown }
{}
