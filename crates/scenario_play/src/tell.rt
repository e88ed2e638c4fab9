ghost use Rattle.std.specs.Prelude.{◌≡◌, ◌≤◌, ◌⊎◌, []};
ghost use Rattle.scenario_play.specs.Outside.{EndsWith, TellsFront};
ghost use Rattle.scenario_play.specs.Status.{last_line};

use crate::status::Status;
use edge_io::{Sink, SinkFault, write_all};
use std::alloc::{AllocError, Global};

/// Writes the last line of a status. The status stays where that write fails, and is `Want` where
/// there was no memory for it.
pub fn tell<K: Sink>(alloc: Global, sink: &mut K, status: Status) -> Status
    ensures status { (result ≡ status) ⊎ (result ≡ Status.Want) }
    ensures line { result ≡ status → result ≡ Status.Want
        ⊎ EndsWith (K.held sink.old) (K.held sink.new) (K.faults sink.old) (K.faults sink.new) [] (last_line status) }
    ensures silent { last_line status ≡ [] → result ≡ status }
    ensures front { TellsFront (K.held sink.old) (K.held sink.new) result }
    ensures later { K.faults sink.old ≤ K.faults sink.new }
{
    match status {
        Status::BadLine(number) | Status::BadFrame(number) | Status::Refused(number) => {
            match format!(in alloc; "{}{number}\n", status.text()) {
                Ok(line) => write_line(sink, status, line.as_bytes()),
                Err(AllocError) => write_line(sink, Status::Want, Status::Want.text().as_bytes()),
            }
        }
        _ => write_line(sink, status, status.text().as_bytes()),
    }
}

fn write_line<K: Sink>(sink: &mut K, status: Status, line: &[u8]) -> Status
    requires { line.now ≡ last_line status }
    ensures status { (result ≡ status) ⊎ (result ≡ Status.Want) }
    ensures line { (result ≡ Status.Want) ⊎ EndsWith (K.held sink.old) (K.held sink.new) (K.faults sink.old)
        (K.faults sink.new) [] (last_line status) }
    ensures silent { last_line status ≡ [] → result ≡ status }
    ensures front { TellsFront (K.held sink.old) (K.held sink.new) result }
    ensures later { K.faults sink.old ≤ K.faults sink.new }
{
    match write_all(sink, line) {
        Ok(()) => status,
        Err(SinkFault::Failed) => status,
        Err(SinkFault::Want) => Status::Want,
    }
}
