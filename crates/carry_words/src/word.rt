ghost use Rattle.std.specs.Prelude.{◌≡◌, IfOk};
ghost use Rattle.std.specs.String.{string_bytes};
ghost use Rattle.carry_words.specs.Words.{items_text, word_text};

use std::alloc::{AllocError, Global};

/// What is said at a member's control address.
#[derive(Clone, Copy, Debug, PartialEq, Eq)]
pub enum Word {
    /// It is to take no change any more.
    Close,
    /// Its group has moved: its clients are to go.
    Moved,
    /// What it knows is asked for.
    Status,
    /// The items of a partition are asked for, from a position on.
    Items { partition: u32, from: u64 },
}

/// The line that says so.
pub fn word_text(alloc: Global, word: Word) -> Result<String, AllocError>
    ensures { IfOk result (λ text. string_bytes text ≡ word_text word) }
{
    match word {
        Word::Close => format!(in alloc; "close\n"),
        Word::Moved => format!(in alloc; "moved\n"),
        Word::Status => format!(in alloc; "status\n"),
        Word::Items { partition, from } => items_text(alloc, partition, from),
    }
}

/// The line that asks for items.
fn items_text(alloc: Global, partition: u32, from: u64) -> Result<String, AllocError>
    ensures { IfOk result (λ text. string_bytes text ≡ items_text partition from) }
{
    format!(in alloc; "items {partition} {from}\n")
}
