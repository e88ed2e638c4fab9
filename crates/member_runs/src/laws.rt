ghost use Rattle.member_runs.specs.Laws.{MembersAreBarred, MembersAreTheMachine, MembersMakeARun, MembersShowLogged, NoTwoMembersHoldAll};

/// The members' actions, in their order, are a run of the group on its machines, after which every member stands.
pub fn members_make_a_run()
    ensures { MembersMakeARun }
{}

/// So what they do composes to a run of the machine, whose processes are those of the members that haven't failed: the
/// whole headline holds of it.
pub fn members_are_the_machine()
    ensures { MembersAreTheMachine }
{}

/// At most m members have failed, and each that hasn't failed has cut all that have.
pub fn members_are_barred()
    ensures { MembersAreBarred }
{}

/// Where no two permitted sets together hold all members, each reply that a member shows is that of the call's entry in the
/// machine's log, for what the client asked, logged since the call began.
pub fn members_show_logged()
    ensures { MembersShowLogged }
{}

/// No two do where there are more data processes than parity processes.
pub fn no_two_members_hold_all()
    ensures { NoTwoMembersHoldAll }
{}
