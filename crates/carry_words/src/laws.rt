//! What stands of every course of a carry.
ghost use Rattle.carry_words.specs.Done.{DoneMeansCarried};

/// Where all is done after some events, each item that was listed among them was read behind its listing, then set, and then read
/// back with the value that was read first; or it wasn't there at a moment by which it had ended.
#[tactic(auto, using(crate::proofs::Doing::done_means_carried))]
pub fn done_means_carried()
    ensures { DoneMeansCarried }
{}
