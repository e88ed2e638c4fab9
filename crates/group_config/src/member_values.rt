ghost use Rattle.std.specs.Prelude.{◌≡◌, option_copied};
ghost use Rattle.std.specs.List.{list_all};
ghost use Rattle.group_config.specs.Keys.{data_of, or_else};
ghost use Rattle.group_config.specs.MemberKeys.{group_id, is_name, is_name_byte, name, order, text};
ghost use Rattle.group_config.specs.declared.member_settings.CallOrder.TheVariants.{Strict};

use crate::member_settings::CallOrder;
use hex::FromHex;
use toml::Value;

/// The 16 bytes that a text of 32 hexadecimal digits says.
pub(crate) fn group_of(value: Option<&Value>) -> Option<[u8; 16]>
    ensures { result ≡ group_id (data_of value.entry) }
{
    <[u8; 16] as FromHex>::from_hex(value?.as_str()?).ok()
}

/// The text that a value is.
pub(crate) fn text_of(value: Option<&Value>) -> Option<&str>
    ensures { option_copied result ≡ text (data_of value.entry) }
{
    value?.as_str()
}

/// The name of a member that a value is.
pub(crate) fn name_of(value: Option<&Value>) -> Option<&str>
    ensures { option_copied result ≡ name (data_of value.entry) }
{
    let name = text_of(value)?;
    if is_name(name) { Some(name) } else { None }
}

fn is_name(text: &str) -> bool
    ensures { result ≡ is_name text.now }
{
    if text.is_empty() || text.len() > 64 {
        false
    } else {
        are_name_bytes(text.as_bytes())
    }
}

fn are_name_bytes(bytes: &[u8]) -> bool
    ensures { result ≡ list_all is_name_byte bytes.now }
{
    let mut left = bytes;
    'left: while let Some((first, rest)) = left.split_first() {
        if !is_name_byte(*first) {
            return false;
        }
        left = rest;
    }
    true
}

fn is_name_byte(byte: u8) -> bool
    ensures { result ≡ is_name_byte byte }
{
    byte.is_ascii_alphanumeric() || byte == b'-' || byte == b'_' || byte == b'.'
}

/// The order in which calls are shown that a value is.
pub(crate) fn order_or_strict(value: Option<&Value>) -> Option<CallOrder>
    ensures { result ≡ or_else Strict order (data_of value.entry) }
{
    match value {
        None => Some(CallOrder::Strict),
        Some(_) => order_of(value),
    }
}

fn order_of(value: Option<&Value>) -> Option<CallOrder>
    ensures { result ≡ order (data_of value.entry) }
{
    let text = text_of(value)?;
    if text == "strict" {
        Some(CallOrder::Strict)
    } else if text == "keys" {
        Some(CallOrder::Keys)
    } else {
        None
    }
}
