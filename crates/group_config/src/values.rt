ghost use Rattle.std.specs.Prelude.{◌≡◌, ◌≤◌, false, IfSome, option_copied};
ghost use Rattle.toml.specs.Data.{get_member};
ghost use Rattle.toml.specs.View.{table_view};
ghost use Rattle.group_config.specs.Keys.{data_of, natural, number, or_else, short_text, truth};

use toml::{Table, Value};

/// The value at a key.
pub(crate) fn value_at<'a>(table: &'a Table, key: &str) -> Option<&'a Value>
    ensures { data_of result ≡ get_member key.now (table_view table.now) }
{
    table.get(key)
}

/// The whole number from 0 on that a value is.
fn natural_of(value: Option<&Value>) -> Option<u64>
    ensures { result ≡ natural (data_of value.entry) }
{
    let found = value?.as_integer()?;
    if found < 0 { None } else { Some(found as u64) }
}

/// The whole number from `least` to `most` that a value is.
pub(crate) fn number_of(value: Option<&Value>, least: u64, most: u64) -> Option<u64>
    ensures found { result ≡ number least most (data_of value.entry) }
    ensures range { IfSome result (λ n. (least ≤ n) × (n ≤ most)) }
{
    let found = natural_of(value)?;
    if least <= found && found <= most {
        Some(found)
    } else {
        None
    }
}

/// The same, or `given` where there is no value.
pub(crate) fn number_or(value: Option<&Value>, given: u64, least: u64, most: u64) -> Option<u64>
    ensures found { result ≡ or_else given (number least most) (data_of value.entry) }
    ensures range { least ≤ given → given ≤ most → IfSome result (λ n. (least ≤ n) × (n ≤ most)) }
{
    match value {
        None => Some(given),
        Some(_) => number_of(value, least, most),
    }
}

/// The text of 1 to 255 bytes that a value is.
pub(crate) fn short_text_of(value: Option<&Value>) -> Option<&str>
    ensures { option_copied result ≡ short_text (data_of value.entry) }
{
    let text = value?.as_str()?;
    if text.is_empty() || text.len() > 255 {
        None
    } else {
        Some(text)
    }
}

/// The truth value that a value is, or false where there is none.
pub(crate) fn truth_or_false(value: Option<&Value>) -> Option<bool>
    ensures { result ≡ or_else false truth (data_of value.entry) }
{
    match value {
        None => Some(false),
        Some(value) => value.as_bool(),
    }
}
