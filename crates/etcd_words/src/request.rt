ghost use Rattle.std.specs.Prelude.{◌≡◌, IfOk};
ghost use Rattle.std.specs.String.{string_bytes};
ghost use Rattle.etcd_words.specs.Asking.{request_text};

use crate::ask::Ask;
use crate::body::body_of;
use std::alloc::{AllocError, Global};

/// The text of a request to a gateway at this address, whose answer ends with its connection.
pub fn request_of(alloc: Global, address: &str, ask: Ask<'_>) -> Result<String, AllocError>
    ensures { IfOk result (λ text. string_bytes text ≡ request_text address.now ask.entry) }
{
    let path = ask.path();
    let body = body_of(alloc, ask)?;
    let length = body.as_bytes().len();
    format!(in alloc;
        "POST {path} HTTP/1.0\r\nHost: {address}\r\nContent-Type: application/json\r\nContent-Length: {length}\r\n\r\n{body}"
    )
}
