ghost use Rattle.std.specs.Prelude.{◌≡◌, ◌⊎◌, Err, IfOk};
ghost use Rattle.toml.specs.Data.{Members};
ghost use Rattle.toml.specs.View.{table_view};
ghost use Rattle.group_config.specs.Keys.{HasWorkers};
ghost use Rattle.group_config.specs.Reading.{ComesOf, IsConfigOutcome, IsDocument, IsNoDocument, behind_shape, settings_of};
ghost use Rattle.group_config.specs.declared.fault.ConfigFault.TheVariants.{BadConfig, Want};
ghost use Rattle.group_types.specs.declared.config_key.ConfigKey.TheVariants.{Syntax};

use crate::address::Address;
use crate::fault::ConfigFault;
use crate::known::all_known_in;
use crate::settings::Settings;
use crate::shape::shape_in;
use crate::values::{number_or, short_text_of, truth_or_false, value_at};
use group_types::{ConfigKey, Shape};
use std::alloc::Global;
use toml::Table;

/// The most connections after which serving may end.
const MOST_CONNECTIONS: u64 = 1 << 62;

/// The keys of settings.
pub(crate) const KEYS: [&str; 8] = [
    "k",
    "m",
    "blocks",
    "block",
    "address",
    "workers",
    "connections",
    "control",
];

/// Reads settings. A key that is wrong is told by the first check that fails: the text is TOML; then k, m, block,
/// blocks, address, workers, connections and control, each there if it is required, of its kind and within its
/// range; then no other key.
pub fn read_settings(alloc: Global, text: &[u8]) -> Result<Settings, ConfigFault>
    ensures document { (ms : Members) → IsDocument text.now ms → IsConfigOutcome result (settings_of ms) }
    ensures syntax { IsNoDocument text.now → (result ≡ Err (BadConfig Syntax)) ⊎ (result ≡ Err Want) }
    ensures comes { ComesOf text.now result }
    ensures workers { IfOk result (λ s. HasWorkers s.workers) }
{
    match toml::table_from_slice(alloc, text) {
        Ok(table) => settings_in(alloc, &table),
        Err(error) if error.is_memory() => Err(ConfigFault::Want),
        Err(_) => Err(bad(ConfigKey::Syntax)),
    }
}

fn settings_in(alloc: Global, table: &Table) -> Result<Settings, ConfigFault>
    ensures told { IsConfigOutcome result (settings_of (table_view table.now)) }
    ensures workers { IfOk result (λ s. HasWorkers s.workers) }
{
    match shape_in(table) {
        Ok(shape) => behind_shape_in(alloc, table, shape),
        Err(key) => Err(bad(key)),
    }
}

/// The settings of a table that gives this shape.
fn behind_shape_in(alloc: Global, table: &Table, shape: Shape) -> Result<Settings, ConfigFault>
    ensures told { IsConfigOutcome result (behind_shape (table_view table.now) shape) }
    ensures workers { IfOk result (λ s. HasWorkers s.workers) }
{
    let Some(address) = short_text_of(value_at(table, "address")) else {
        return Err(bad(ConfigKey::Address));
    };
    let Some(workers) = number_or(value_at(table, "workers"), 4, 1, 64) else {
        return Err(bad(ConfigKey::Workers));
    };
    let Some(connections) = number_or(value_at(table, "connections"), 0, 0, MOST_CONNECTIONS) else {
        return Err(bad(ConfigKey::Connections));
    };
    let Some(control) = truth_or_false(value_at(table, "control")) else {
        return Err(bad(ConfigKey::Control));
    };
    if !all_known_in(table, &KEYS) {
        return Err(bad(ConfigKey::Unknown));
    }
    Ok(Settings {
        shape,
        address: Address::new(alloc, address)?,
        workers: workers as u32,
        connections,
        control,
    })
}

fn bad(key: ConfigKey) -> ConfigFault
    ensures { result ≡ BadConfig key }
{
    ConfigFault::BadConfig { key }
}
