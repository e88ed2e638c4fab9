ghost use Rattle.std.specs.Prelude.{◌≡◌, ◌<◌, [], ◌∷◌, OnOk, OnErr, IfOk};
ghost use Rattle.group_types.specs.Names.{IsProcess};
ghost use Rattle.group_run.specs.Headline.{MayCome};
ghost use Rattle.group_run.specs.Meaning.{IsDown};
ghost use Rattle.group_run.specs.World.{step};
ghost use Rattle.group_eras.specs.Carry.{bytes_got};
ghost use Rattle.group_eras.specs.Items.{head_of};
ghost use Rattle.group_regroup.specs.Parts.{MayAsk, IsPart};
ghost use Rattle.group_regroup.specs.Reading.{IsValueFound, get_at, got_on, tried};

use crate::drain::{answer_to, drain};
use group_calls::{Answer, Cause, Event};
use group_core::World;
use group_types::{Key, Partition, Payload, ProcessId};
use memc_table::{Act, Op, Reply};
use std::alloc::AllocError;

/// The caller that carries.
pub(crate) const CARRIER: u32 = 255;

/// Reads the value of an item. After want of memory the first events stand.
pub(crate) fn get(world: &mut World, partition: Partition, key: &Key) -> Result<Payload, AllocError>
    requires partition { partition.0 < world.old.shape.k }
    requires up { ¬ (IsDown world.old) }
    ensures up { ¬ (IsDown world.new) }
    ensures world { OnOk result (world.new ≡ (got_on world.old partition.0 key.now).world) }
    ensures value { IfOk result (λ value. value ≡ bytes_got (got_on world.old partition.0 key.now).answer) }
    ensures err { OnErr result (IsPart world.old (got_on world.old partition.0 key.now).events world.new) }
{
    let at = head(world, partition);
    let key = key.clone()?;
    ask_at(world, key, at)
}

/// The same at this process.
fn ask_at(world: &mut World, key: Key, at: ProcessId) -> Result<Payload, AllocError>
    requires process { IsProcess world.old.shape at }
    requires up { ¬ (IsDown world.old) }
    ensures up { ¬ (IsDown world.new) }
    ensures world { OnOk result (world.new ≡ (tried world.old (get_at key at)).world) }
    ensures value { IfOk result (λ value. value ≡ bytes_got (tried world.old (get_at key at)).answer) }
    ensures err { OnErr result (IsPart world.old (tried world.old (get_at key at)).events world.new) }
{
    let event = Event::Ask {
        caller: CARRIER,
        op: Op::new(0, Act::Get { key }),
        at,
    };
    ask_event(world, event)
}

/// The same by an event.
fn ask_event(world: &mut World, event: Event) -> Result<Payload, AllocError>
    requires may { MayAsk world.old event }
    requires up { ¬ (IsDown world.old) }
    ensures up { ¬ (IsDown world.new) }
    ensures world { OnOk result (world.new ≡ (tried world.old event).world) }
    ensures value { IfOk result (λ value. value ≡ bytes_got (tried world.old event).answer) }
    ensures err { OnErr result (IsPart world.old (tried world.old event).events world.new) }
{
    let value = ask(world, &event);
    drop(event);
    value
}

/// Asks, and where a block has to be rebuilt first drains and asks again.
fn ask(world: &mut World, event: &Event) -> Result<Payload, AllocError>
    requires may { MayAsk world.old event.now }
    requires up { ¬ (IsDown world.old) }
    ensures up { ¬ (IsDown world.new) }
    ensures world { OnOk result (world.new ≡ (tried world.old event.now).world) }
    ensures value { IfOk result (λ value. value ≡ bytes_got (tried world.old event.now).answer) }
    ensures err { OnErr result (IsPart world.old (tried world.old event.now).events world.new) }
{
    world.run();
    let mut value = ask_once(world, event)?;
    'tries: for _ in 0..world.shape().blocks() {
        if value.is_some() {
            break;
        }
        drain(world)?;
        value = ask_once(world, event)?;
    }
    match value {
        Some(value) => Ok(value),
        None => Err(AllocError),
    }
}

/// Asks once, and gives the value: none where the call has to be asked again.
fn ask_once(world: &mut World, event: &Event) -> Result<Option<Payload>, AllocError>
    requires may { MayAsk world.old event.now }
    requires up { ¬ (IsDown world.old) }
    ensures up { ¬ (IsDown world.new) }
    ensures world { OnOk result (world.new ≡ (step world.old event.now).world) }
    ensures value { IfOk result (IsValueFound (step world.old event.now).turn.answer) }
    ensures err { OnErr result (IsPart world.old (event.now ∷ []) world.new) }
{
    match answer_to(world, event)? {
        Answer::Reply(Reply::Value(item)) => Ok(Some(item.value)),
        Answer::Retry(_) => Ok(None),
        _ => Err(AllocError),
    }
}

/// The process that heads a partition: the living one of lowest rank.
pub(crate) fn head(world: &World, partition: Partition) -> ProcessId
    requires { partition.0 < world.now.shape.k }
    ensures head { result ≡ head_of world.now partition.0 }
    ensures process { IsProcess world.now.shape result }
{
    let data = ProcessId::DataNode(partition.0);
    if !world.is_dead(data) {
        return data;
    }
    'ranks: for i in 0..world.shape().m() {
        let parity = ProcessId::ParityNode(i);
        if !world.is_dead(parity) {
            return parity;
        }
    }
    data
}
