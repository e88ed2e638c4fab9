//! Draining ends, block sessions end, and a call waits for a block but once. What a process sends on receiving a
//! message weighs less in all than the message, so as many deliveries as the weight of what is on its way drain a
//! group; and a drained group has nothing unfinished. It is told of the pure machine, for every shape and every run.
#![tactic(auto)]

ghost use Rattle.law_progress.specs.Drains.{DrainsWholeAlways, NextComesAlways, RisesLittleAlways};
ghost use Rattle.law_progress.specs.Ends.{DeliversAlways, DrainedAlways, EndsAlways, LowersAlways};
ghost use Rattle.law_progress.specs.FewWaits.{FewWaitsAlways};
ghost use Rattle.law_progress.specs.Quiets.{QuietAlways};

/// Along every run each delivery with which a message comes lowers the weight of what is on its way.
pub fn deliveries_lower()
    ensures { LowersAlways }
{}

/// After every run no more deliveries follow one another than the weight of what is on its way.
pub fn draining_ends()
    ensures { EndsAlways }
{}

/// After every run a group that isn't down is drained where no delivery is left with which a message comes.
pub fn deliveries_are_left()
    ensures { DeliversAlways }
{}

/// After every run a group that isn't down can be drained by deliveries alone.
pub fn groups_drain()
    ensures { DrainedAlways }
{}

/// Along every run no event adds much to the weight of what is on its way.
pub fn events_add_little()
    ensures { RisesLittleAlways }
{}

/// After every run of a group that isn't down the delivery that is next may come, and a message comes with it.
pub fn next_deliveries_come()
    ensures { NextComesAlways }
{}

/// After every run a group that isn't down is drained by as many deliveries as the weight, each the next.
pub fn weights_drain()
    ensures { DrainsWholeAlways }
{}

/// A drained group that isn't down has nothing unfinished: each partition has a head that has taken over and has
/// settled its log, no session is open and no copy left, and neither a trace nor an ask has to wait for an update.
pub fn quiet_always()
    ensures { QuietAlways }
{}

/// From any group of a run on, while no process fails and calls are asked where the group is drained, at most as many
/// calls at a process have to wait for a block as there are blocks.
pub fn few_waits_always()
    ensures { FewWaitsAlways }
{}
