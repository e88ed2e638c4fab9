ghost use Rattle.std.specs.Prelude.{◌≡◌, ◌≢◌};
ghost use Rattle.edge_io.specs.Faults.{Rose};
ghost use Rattle.scenario_play.specs.Outside.{outside};
ghost use Rattle.scenario_play.specs.Played.{IsPlayed};
ghost use Rattle.cluster_play.specs.Language.{cluster_scripts};

use crate::playing::ClusterPlay;
use edge_io::{Sink, Source};
use scenario_play::Status;
use scenario_play::play::play_on;
use std::alloc::Global;

/// Reads a script of several groups from the source to its end, treats its lines in order, and writes their
/// transcript, and then the last line of the status.
pub fn play_groups<S: Source, K: Sink>(alloc: Global, source: &mut S, sink: &mut K) -> Status
    ensures played { IsPlayed cluster_scripts (outside (S.input source.old) (S.faults source.old) (K.held sink.old) (K.faults sink.old))
        (outside (S.input source.new) (S.faults source.new) (K.held sink.new) (K.faults sink.new)) result }
    ensures named { result ≢ Status.BadWords }
    ensures read { result ≡ Status.ReadFault → Rose (S.faults source.old) (S.faults source.new) }
    ensures write { result ≡ Status.WriteFault → Rose (K.faults sink.old) (K.faults sink.new) }
{
    play_on::<ClusterPlay, S, K>(alloc, source, sink)
}
