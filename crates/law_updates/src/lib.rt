//! One partition's history, with no group and no links: every update that a head issues is the one that memcached's
//! table makes of its call, its value is placed where the allocator would place it, and it writes clear of all that
//! may still be read. How fine histories come about and what they leave are lemmas (`proofs::Fines`,
//! `proofs::Homes`); that heads have such histories is left to the crates above.
#![tactic(auto)]

ghost use Rattle.law_updates.specs.Decisions.{DecisionsAreSound};
ghost use Rattle.law_updates.specs.Laws.{RightUpdatesLeave};
ghost use Rattle.law_updates.specs.Placing.{PlacesAreBest};

/// After a right update its key holds what the table leaves there, and every other key what it held.
pub fn right_updates_leave()
    ensures { RightUpdatesLeave }
{}

/// What a head decides of a call is the table's refusal, a right update, or puts the call off.
pub fn decisions_are_sound()
    ensures { DecisionsAreSound }
{}

/// The run that the machine gives a value is the front of the lowest of the shortest free runs that have the length.
#[tactic(auto, using(crate::proofs::Placing::places_are_best))]
pub fn places_are_best()
    ensures { PlacesAreBest }
{}
