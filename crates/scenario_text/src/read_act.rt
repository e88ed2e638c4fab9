ghost use Rattle.std.specs.Prelude.{◌≡◌, ◌<◌, All, map, IfOk, [], ◌∷◌};
ghost use Rattle.memc_table.specs.Act.{act_value};
ghost use Rattle.scenario_text.specs.Acts.{act_of_words, act_of_verb, stored, store_of_words, exptime_of};
ghost use Rattle.scenario_text.specs.Reads.{IsReadAs};

use crate::line::LineFault;
use crate::read_value::read_value;
use crate::read_word::{read_exptime, read_key, read_u32, read_u64};
use crate::verb::{StoreMode, Verb, verb_named};
use group_types::{Key, Payload};
use memc_table::Act;
use std::alloc::Global;

/// What an item is made of.
#[derive(Drop)]
pub struct Store {
    pub flags: u32,
    pub expiry: i64,
    pub value: Payload,
}

/// Reads an op: a verb, a key, and what the verb has behind it.
pub(crate) fn read_act(alloc: Global, words: &[&[u8]]) -> Result<Act, LineFault>
    ensures meaning { IsReadAs result (act_of_words (map (λ word. word.now) words.now)) }
    ensures bytes { IfOk result (λ act. All (λ b. b < 256) (act_value act)) }
{
    match words {
        [name, key, words @ ..] => match verb_named(name) {
            Some(verb) => act(alloc, verb, key, words),
            None => Err(LineFault::BadLine),
        },
        _ => Err(LineFault::BadLine),
    }
}

fn act(alloc: Global, verb: Verb, key: &[u8], words: &[&[u8]]) -> Result<Act, LineFault>
    ensures meaning { IsReadAs result (act_of_verb verb key.now (map (λ word. word.now) words.now)) }
    ensures bytes { IfOk result (λ act. All (λ b. b < 256) (act_value act)) }
{
    match verb {
        Verb::Get => get(alloc, key, words),
        Verb::Store(mode) => read_stored(alloc, mode, key, words),
        Verb::Cas => compare(alloc, key, words),
        Verb::Delete => delete(alloc, key, words),
        Verb::Touch => touch(alloc, key, words),
        Verb::Append => append(alloc, key, words),
        Verb::Prepend => prepend(alloc, key, words),
        Verb::Incr => incr(alloc, key, words),
        Verb::Decr => decr(alloc, key, words),
    }
}

#[tactic(auto, unfolding(crate::specs::Acts::act_of_verb))]
fn get(alloc: Global, key: &[u8], words: &[&[u8]]) -> Result<Act, LineFault>
    ensures meaning { IsReadAs result (act_of_verb Verb.Get key.now (map (λ word. word.now) words.now)) }
    ensures bytes { IfOk result (λ act. act_value act ≡ []) }
{
    let [] = words else {
        return Err(LineFault::BadLine);
    };
    let key = read_key(alloc, key)?;
    Ok(Act::Get { key })
}

#[tactic(auto, unfolding(crate::specs::Acts::act_of_verb))]
fn read_stored(
    alloc: Global,
    mode: StoreMode,
    key: &[u8],
    words: &[&[u8]],
) -> Result<Act, LineFault>
    ensures meaning { IsReadAs result (act_of_verb (Verb.Store mode) key.now (map (λ word. word.now) words.now)) }
    ensures bytes { IfOk result (λ act. All (λ b. b < 256) (act_value act)) }
{
    let [flags, words @ ..] = words else {
        return Err(LineFault::BadLine);
    };
    let key = read_key(alloc, key)?;
    Ok(stored(mode, key, read_store(alloc, flags, words)?))
}

#[tactic(auto, unfolding(crate::specs::Acts::act_of_verb))]
fn compare(alloc: Global, key: &[u8], words: &[&[u8]]) -> Result<Act, LineFault>
    ensures meaning { IsReadAs result (act_of_verb Verb.Cas key.now (map (λ word. word.now) words.now)) }
    ensures bytes { IfOk result (λ act. All (λ b. b < 256) (act_value act)) }
{
    let [flags, cas, words @ ..] = words else {
        return Err(LineFault::BadLine);
    };
    let key = read_key(alloc, key)?;
    let cas = read_u64(cas)?;
    let store = read_store(alloc, flags, words)?;
    Ok(Act::Cas {
        key,
        flags: store.flags,
        expiry: store.expiry,
        cas,
        value: store.value,
    })
}

#[tactic(auto, unfolding(crate::specs::Acts::act_of_verb))]
fn delete(alloc: Global, key: &[u8], words: &[&[u8]]) -> Result<Act, LineFault>
    ensures meaning { IsReadAs result (act_of_verb Verb.Delete key.now (map (λ word. word.now) words.now)) }
    ensures bytes { IfOk result (λ act. act_value act ≡ []) }
{
    let [] = words else {
        return Err(LineFault::BadLine);
    };
    let key = read_key(alloc, key)?;
    Ok(Act::Delete { key })
}

#[tactic(auto, unfolding(crate::specs::Acts::act_of_verb))]
fn touch(alloc: Global, key: &[u8], words: &[&[u8]]) -> Result<Act, LineFault>
    ensures meaning { IsReadAs result (act_of_verb Verb.Touch key.now (map (λ word. word.now) words.now)) }
    ensures bytes { IfOk result (λ act. act_value act ≡ []) }
{
    let [exptime] = words else {
        return Err(LineFault::BadLine);
    };
    let key = read_key(alloc, key)?;
    let expiry = read_exptime(exptime)?;
    Ok(Act::Touch { key, expiry })
}

#[tactic(auto, unfolding(crate::specs::Acts::act_of_verb))]
fn append(alloc: Global, key: &[u8], words: &[&[u8]]) -> Result<Act, LineFault>
    ensures meaning { IsReadAs result (act_of_verb Verb.Append key.now (map (λ word. word.now) words.now)) }
    ensures bytes { IfOk result (λ act. All (λ b. b < 256) (act_value act)) }
{
    let [value] = words else {
        return Err(LineFault::BadLine);
    };
    let key = read_key(alloc, key)?;
    let value = read_value(alloc, value)?;
    Ok(Act::Append { key, value })
}

#[tactic(auto, unfolding(crate::specs::Acts::act_of_verb))]
fn prepend(alloc: Global, key: &[u8], words: &[&[u8]]) -> Result<Act, LineFault>
    ensures meaning { IsReadAs result (act_of_verb Verb.Prepend key.now (map (λ word. word.now) words.now)) }
    ensures bytes { IfOk result (λ act. All (λ b. b < 256) (act_value act)) }
{
    let [value] = words else {
        return Err(LineFault::BadLine);
    };
    let key = read_key(alloc, key)?;
    let value = read_value(alloc, value)?;
    Ok(Act::Prepend { key, value })
}

#[tactic(auto, unfolding(crate::specs::Acts::act_of_verb))]
fn incr(alloc: Global, key: &[u8], words: &[&[u8]]) -> Result<Act, LineFault>
    ensures meaning { IsReadAs result (act_of_verb Verb.Incr key.now (map (λ word. word.now) words.now)) }
    ensures bytes { IfOk result (λ act. act_value act ≡ []) }
{
    let [by] = words else {
        return Err(LineFault::BadLine);
    };
    let key = read_key(alloc, key)?;
    let by = read_u64(by)?;
    Ok(Act::Incr { key, by })
}

#[tactic(auto, unfolding(crate::specs::Acts::act_of_verb))]
fn decr(alloc: Global, key: &[u8], words: &[&[u8]]) -> Result<Act, LineFault>
    ensures meaning { IsReadAs result (act_of_verb Verb.Decr key.now (map (λ word. word.now) words.now)) }
    ensures bytes { IfOk result (λ act. act_value act ≡ []) }
{
    let [by] = words else {
        return Err(LineFault::BadLine);
    };
    let key = read_key(alloc, key)?;
    let by = read_u64(by)?;
    Ok(Act::Decr { key, by })
}

fn stored(mode: StoreMode, key: Key, store: Store) -> Act
    ensures act { result ≡ stored mode key store }
    ensures value { act_value result ≡ store.value }
{
    let Store {
        flags,
        expiry,
        value,
    } = store;
    match mode {
        StoreMode::Set => Act::Set {
            key,
            flags,
            expiry,
            value,
        },
        StoreMode::Add => Act::Add {
            key,
            flags,
            expiry,
            value,
        },
        StoreMode::Replace => Act::Replace {
            key,
            flags,
            expiry,
            value,
        },
    }
}

/// Reads flags, a value, and an exptime where there is one.
#[tactic(auto, unfolding(crate::specs::Acts::store_of_words))]
fn read_store(alloc: Global, flags: &[u8], words: &[&[u8]]) -> Result<Store, LineFault>
    ensures meaning { IsReadAs result (store_of_words flags.now (map (λ word. word.now) words.now)) }
    ensures bytes { IfOk result (λ store. All (λ b. b < 256) store.value) }
{
    match words {
        [value, exptime @ ..] => Ok(Store {
            flags: read_u32(flags)?,
            value: read_value(alloc, value)?,
            expiry: read_expiry(exptime)?,
        }),
        [] => Err(LineFault::BadLine),
    }
}

fn read_expiry(words: &[&[u8]]) -> Result<i64, LineFault>
    ensures { IsReadAs result (exptime_of (map (λ word. word.now) words.now)) }
{
    match words {
        [] => Ok(0),
        [exptime] => read_exptime(exptime),
        _ => Err(LineFault::BadLine),
    }
}
