use std::alloc::{AllocError, Global};
use std::marker::Model;

/// What a member is called: 1 to 64 letters, digits, `-`, `_` and `.`, which contracts see as the list of its bytes.
#[derive(Drop)]
pub struct MemberName {
    text: String,
}

impl Model for MemberName {
    ghost use Rattle.std.specs.Prelude.{ℕ, List, string_bytes};

    ghost Value = { List ℕ };

    ghost view = { λ n. string_bytes n.text };
}

impl MemberName {
    ghost use Rattle.std.specs.Prelude.{◌≡◌, IfOk};

    /// A copy of this text.
    pub(crate) fn new(alloc: Global, text: &str) -> Result<MemberName, AllocError>
        ensures { IfOk result (λ n. n ≡ text.now) }
    {
        Ok(MemberName {
            text: String::from_str(alloc, text)?,
        })
    }

    /// The text.
    pub fn as_str(&self) -> &str
        ensures { result.now ≡ self.now }
    {
        self.text.as_str()
    }
}
