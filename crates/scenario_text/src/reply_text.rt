ghost use Rattle.std.specs.Prelude.{◌≡◌, ◌++◌, IfOk};
ghost use Rattle.std.specs.Fmt.{decimal};
ghost use Rattle.scenario_text.specs.Texts.{reply_words, value_text};

use memc_table::Reply;
use std::alloc::{AllocError, Global};

/// A value: lower-case hexadecimal digits, or `-` for no bytes.
pub fn write_value(alloc: Global, value: &[u8]) -> Result<Vec<u8>, AllocError>
    ensures { IfOk result (λ text. text.items ≡ value_text value.now) }
{
    if value.is_empty() {
        return Vec::from_slice(alloc, b"-");
    }
    Ok(hex::encode(alloc, value)?.into_bytes())
}

/// A reply.
pub fn write_reply(alloc: Global, reply: &Reply) -> Result<Vec<u8>, AllocError>
    ensures { IfOk result (λ text. text.items ≡ reply_words reply.now) }
{
    match reply {
        Reply::Value(item) => {
            let mut text = Vec::from_slice(alloc, b"value")?;
            text.extend_from_slice(format!(in alloc; " {}", item.flags)?.as_bytes())?;
            text.extend_from_slice(format!(in alloc; " {}", item.cas)?.as_bytes())?;
            text.extend_from_slice(b" ")?;
            joined(text, &write_value(alloc, item.value.bytes())?)
        }
        Reply::Number(number) => Ok(format!(in alloc; "number {number}")?.into_bytes()),
        Reply::Miss => Vec::from_slice(alloc, b"miss"),
        Reply::Stored => Vec::from_slice(alloc, b"stored"),
        Reply::NotStored => Vec::from_slice(alloc, b"not_stored"),
        Reply::Exists => Vec::from_slice(alloc, b"exists"),
        Reply::NotFound => Vec::from_slice(alloc, b"not_found"),
        Reply::Deleted => Vec::from_slice(alloc, b"deleted"),
        Reply::Touched => Vec::from_slice(alloc, b"touched"),
        Reply::NotNumber => Vec::from_slice(alloc, b"not_number"),
        Reply::TooLarge => Vec::from_slice(alloc, b"too_large"),
    }
}

/// The text with more behind it.
pub(crate) fn joined(mut text: Vec<u8>, more: &[u8]) -> Result<Vec<u8>, AllocError>
    ensures { IfOk result (λ joined. joined.items ≡ text.items ++ more.now) }
{
    text.extend_from_slice(more)?;
    Ok(text)
}
