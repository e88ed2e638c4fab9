ghost use Rattle.std.specs.Prelude.{◌≡◌, IfErr, IfOk, OnOk, Some};
ghost use Rattle.edge_io.specs.Faults.{HasCauseOf};
ghost use Rattle.edge_io.specs.Moving.{Appends};
ghost use Rattle.group_config.specs.Keys.{HasWorkers};
ghost use Rattle.group_config.specs.Reading.{ComesOf};
ghost use Rattle.group_server.specs.Service.{HasServedBy, HasServedGroup, listening, tally_with};
ghost use Rattle.group_server.specs.Steps.{HasNotOpened, HasReported, IsGivenOr};

use crate::fault::ServiceFault;
use crate::notice::Notice;
use crate::server::serve_group;
use crate::terms::Terms;
use edge_io::{Clock, Sink, Source, write_all};
use group_config::{ConfigFault, Settings, find_served, read_settings, read_text};
use group_stage::Stage;
use group_types::ConfigKey;
use node_worker::{OpenGate, ServeFault};
use ready_worker::ReadyListener;
use std::alloc::Global;
use std::sync::Wait;
use std::thread::Threads;

/// Serves a fresh group by the settings that a source gives, and tells how many connections were accepted. It writes
/// `listening` once the listener listens at their address, and behind the last connection `served` and their number.
pub fn serve<R: Threads + Wait + Sync, S: Source, K: Sink, L: ReadyListener, N: Notice, T: Clock>(
    rt: &R,
    alloc: Global,
    source: &mut S,
    sink: &mut K,
    listener: &mut L,
    notice: &N,
    clock: &T,
) -> Result<u64, ServiceFault>
where
    L::Incoming: Drop,
    L::Outgoing: Drop,
    ensures served { HasServedGroup L.listened (λ l. tally_with (L.at l) (L.accepted l) (L.over l))
        (S.input source.old) (S.input source.new) (K.held sink.old) (K.held sink.new) listener.old listener.new result }
    ensures read { HasCauseOf (S.faults source.old) (S.faults source.new) result ServiceFault.ReadFault }
    ensures write { HasCauseOf (K.faults sink.old) (K.faults sink.new) result ServiceFault.WriteFault }
    ensures accept { HasCauseOf (L.faults listener.old) (L.faults listener.new) result ServiceFault.AcceptFault }
{
    let settings = given(alloc, source, notice)?;
    serve_by(rt, alloc, &settings, sink, listener, notice, clock)
}

/// The settings that a source gives.
fn given<S: Source, N: Notice>(
    alloc: Global,
    source: &mut S,
    notice: &N,
) -> Result<Settings, ServiceFault>
    ensures given { IsGivenOr (S.input source.old) (S.input source.new) result }
    ensures workers { IfOk result (λ s. HasWorkers s.workers) }
    ensures read { HasCauseOf (S.faults source.old) (S.faults source.new) result ServiceFault.ReadFault }
{
    let text = read_text(alloc, source)?;
    Ok(read_or_tell(alloc, &text, notice)?)
}

/// The settings that a text gives. Where it gives none a person is told what is wrong with it.
fn read_or_tell<N: Notice>(alloc: Global, text: &[u8], notice: &N) -> Result<Settings, ConfigFault>
    ensures comes { ComesOf text.now result }
    ensures workers { IfOk result (λ s. HasWorkers s.workers) }
{
    let read = read_settings(alloc, text);
    if let Err(ConfigFault::BadConfig { key }) = &read {
        tell_refusal(alloc, text, *key, notice);
    }
    read
}

/// Tells what is wrong with a text of settings that is refused at a key.
fn tell_refusal<N: Notice>(alloc: Global, text: &[u8], key: ConfigKey, notice: &N) {
    if let Ok(finding) = find_served(alloc, text, key) {
        notice.refuse(&finding);
    }
}

/// Serves a group with these settings.
fn serve_by<R: Threads + Wait + Sync, K: Sink, L: ReadyListener, N: Notice, T: Clock>(
    rt: &R,
    alloc: Global,
    settings: &Settings,
    sink: &mut K,
    listener: &mut L,
    notice: &N,
    clock: &T,
) -> Result<u64, ServiceFault>
where
    L::Incoming: Drop,
    L::Outgoing: Drop,
    requires { HasWorkers settings.now.workers }
    ensures served { HasServedBy L.listened (λ l. tally_with (L.at l) (L.accepted l) (L.over l)) settings.now
        (K.held sink.old) (K.held sink.new) listener.old listener.new result }
    ensures write { HasCauseOf (K.faults sink.old) (K.faults sink.new) result ServiceFault.WriteFault }
    ensures accept { HasCauseOf (L.faults listener.old) (L.faults listener.new) result ServiceFault.AcceptFault }
{
    // A port is never open for a group that there is no memory for.
    let (stage, seats) = Stage::new(alloc, settings.shape, settings.workers + 2)?;
    open(settings, sink, listener, notice)?;
    let terms = Terms {
        settings,
        gate: &OpenGate,
        notice,
        clock,
    };
    let end = serve_group(rt, alloc, listener, &stage, seats, &terms);
    report(alloc, sink, end)
}

/// Listens at the settings' address, and says so.
fn open<K: Sink, L: ReadyListener, N: Notice>(
    settings: &Settings,
    sink: &mut K,
    listener: &mut L,
    notice: &N,
) -> Result<(), ServiceFault>
    ensures listens { OnOk result (L.listened listener.old settings.now.address listener.new) }
    ensures at { OnOk result (L.at listener.new ≡ Some settings.now.address) }
    ensures written { OnOk result (Appends (K.held sink.old) (K.held sink.new) listening) }
    ensures accepted { L.accepted listener.new ≡ L.accepted listener.old }
    ensures failed { IfErr result (HasNotOpened L.listened (λ l. tally_with (L.at l) (L.accepted l) (L.over l)) settings.now
        (K.held sink.old) (K.held sink.new) listener.old listener.new) }
    ensures write { HasCauseOf (K.faults sink.old) (K.faults sink.new) result ServiceFault.WriteFault }
    ensures accept { HasCauseOf (L.faults listener.old) (L.faults listener.new) result ServiceFault.AcceptFault }
{
    listener
        .listen(settings.address.as_str())
        .map_err(ServeFault::from)?;
    notice.tell(settings);
    write_all(sink, b"listening\n")?;
    Ok(())
}

/// Says how many connections were accepted, if serving ended well.
fn report<K: Sink>(
    alloc: Global,
    sink: &mut K,
    end: Result<u64, ServeFault>,
) -> Result<u64, ServiceFault>
    ensures told { HasReported (K.held sink.old) (K.held sink.new) end result }
    ensures write { HasCauseOf (K.faults sink.old) (K.faults sink.new) result ServiceFault.WriteFault }
{
    let n = end?;
    let line = format!(in alloc; "served {n}\n")?;
    write_all(sink, line.as_bytes())?;
    Ok(n)
}
