ghost use Rattle.member_gateway.specs.Laws.{EndsAreLogged};

/// Where no two permitted sets together hold all members: a call that began at a member, which left it open and shows it now
/// as ended by a reply, has this reply in the machine's log, for the op that began, logged since it began.
pub fn ends_are_logged()
    ensures { EndsAreLogged }
{}
