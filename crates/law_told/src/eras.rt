ghost use Rattle.law_told.specs.Eras.{CarriesAreCounted, NoSpaceIsFirst, PendingsGoOn, StampsGoOn};

/// An ask that has to wait is told its update's number behind all updates that earlier eras have logged in the partition.
#[tactic(auto, using(crate::proofs::Going::pendings_go_on))]
pub fn pendings_go_on()
    ensures { PendingsGoOn }
{}

/// So are the numbers of a stamp.
#[tactic(auto, using(crate::proofs::Going::stamps_go_on))]
pub fn stamps_go_on()
    ensures { StampsGoOn }
{}

/// As many items are carried as keys of the table over all eras have an item that lives at some moment.
#[tactic(auto, using(crate::proofs::Carried::carries_are_counted))]
pub fn carries_are_counted()
    ensures { CarriesAreCounted }
{}

/// The partition that is told to have no space is the first whose living values are longer than the new space.
pub fn no_space_is_first()
    ensures { NoSpaceIsFirst }
{}
