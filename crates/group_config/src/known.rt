ghost use Rattle.std.specs.Prelude.{◌≡◌, map};
ghost use Rattle.std.specs.List.{list_any};
ghost use Rattle.std.specs.Str.{bytes_eq};
ghost use Rattle.toml.specs.View.{table_view};
ghost use Rattle.group_config.specs.Keys.{all_among};

use toml::Table;

/// Whether every key of a table is one of these.
pub(crate) fn all_known_in(table: &Table, keys: &[&str]) -> bool
    ensures { result ≡ all_among (map (λ k. k.now) keys.now) (table_view table.now) }
{
    'keys: for key in table.keys() {
        if !is_among(key.as_str(), keys) {
            return false;
        }
    }
    true
}

/// The first key of a table that is none of these, for a person.
pub(crate) fn unknown_in<'a>(table: &'a Table, keys: &[&str]) -> Option<&'a str> {
    'keys: for key in table.keys() {
        if !is_among(key.as_str(), keys) {
            return Some(key.as_str());
        }
    }
    None
}

/// Whether a key is one of these.
fn is_among(key: &str, keys: &[&str]) -> bool
    ensures { result ≡ list_any (λ k. bytes_eq k key.now) (map (λ k. k.now) keys.now) }
{
    keys.contains(&key)
}
