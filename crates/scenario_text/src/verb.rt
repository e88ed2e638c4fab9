ghost use Rattle.std.specs.Prelude.{◌≡◌};
ghost use Rattle.scenario_text.specs.Acts.{verb_of};

/// The first words of ops.
#[derive(Clone, Copy)]
pub enum Verb {
    Get,
    Store(StoreMode),
    Cas,
    Delete,
    Touch,
    Append,
    Prepend,
    Incr,
    Decr,
}

/// The verbs that have the same words: they differ in what they do with an item that is there.
#[derive(Clone, Copy)]
pub enum StoreMode {
    Set,
    Add,
    Replace,
}

/// The verb that a word names.
#[tactic(auto, unfolding(crate::specs::Acts::verb_of))]
pub(crate) fn verb_named(word: &[u8]) -> Option<Verb>
    ensures { result ≡ verb_of word.now }
{
    match word {
        _ if word == b"get".as_slice() => Some(Verb::Get),
        _ if word == b"set".as_slice() => Some(Verb::Store(StoreMode::Set)),
        _ if word == b"add".as_slice() => Some(Verb::Store(StoreMode::Add)),
        _ if word == b"replace".as_slice() => Some(Verb::Store(StoreMode::Replace)),
        _ if word == b"cas".as_slice() => Some(Verb::Cas),
        _ if word == b"delete".as_slice() => Some(Verb::Delete),
        _ if word == b"touch".as_slice() => Some(Verb::Touch),
        _ if word == b"append".as_slice() => Some(Verb::Append),
        _ if word == b"prepend".as_slice() => Some(Verb::Prepend),
        _ if word == b"incr".as_slice() => Some(Verb::Incr),
        _ if word == b"decr".as_slice() => Some(Verb::Decr),
        _ => None,
    }
}
