ghost use Rattle.std.specs.Prelude.{◌≡◌, ◌≢◌};
ghost use Rattle.edge_io.specs.Faults.{Rose};
ghost use Rattle.scenario_play.specs.Outside.{outside};
ghost use Rattle.scenario_play.specs.Played.{IsPlayed};
ghost use Rattle.regroup_play.specs.Language.{era_scripts};

use crate::playing::EraPlay;
use edge_io::{Sink, Source};
use scenario_play::Status;
use scenario_play::play::play_on;
use std::alloc::Global;

/// Reads a script of a group over eras from the source to its end, treats its lines in order, and writes their
/// transcript, and then the last line of the status. A group that can count no further event ends it as want of memory
/// does.
pub fn play_regroup<S: Source, K: Sink>(alloc: Global, source: &mut S, sink: &mut K) -> Status
    ensures played { IsPlayed era_scripts (outside (S.input source.old) (S.faults source.old) (K.held sink.old) (K.faults sink.old))
        (outside (S.input source.new) (S.faults source.new) (K.held sink.new) (K.faults sink.new)) result }
    ensures named { result ≢ Status.BadWords }
    ensures read { result ≡ Status.ReadFault → Rose (S.faults source.old) (S.faults source.new) }
    ensures write { result ≡ Status.WriteFault → Rose (K.faults sink.old) (K.faults sink.new) }
{
    play_on::<EraPlay, S, K>(alloc, source, sink)
}
