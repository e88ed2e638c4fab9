//! Runs of the pure machine as moves of a state, and who is known dead, heads what and may have which message in which
//! link along them. The contracts say when a group is down and when a call is sent away; that every event makes a move,
//! and what every move keeps of the members, are the lemmas `proofs::Runs` and `proofs::Keeping`. What messages carry,
//! and what replicas have seen, is left to the crates above.
#![tactic(auto)]

ghost use Rattle.law_moves.specs.Away.{AwayAlways};
ghost use Rattle.law_moves.specs.Down.{DownAlways, WordsAlways};
ghost use Rattle.law_moves.specs.Known.{KnownStays};

/// Each node's word whether the group is down is right.
pub fn words_always()
    ensures { WordsAlways }
{}

/// Past m losses every event but a failure is answered that the group is down, and the log stands
/// still.
pub fn down_always()
    ensures { DownAlways }
{}

/// A call is answered `Moved`, `Lost` or `Down` exactly where it should: where the process does not
/// head the key's partition or has not taken over, where it is dead, where the group is down.
pub fn away_always()
    ensures { AwayAlways }
{}

/// Calls leave whom a process knows dead, and so does every message but a notice: of every process, whether a run leads
/// to it or not.
pub fn known_stays()
    ensures { KnownStays }
{}
