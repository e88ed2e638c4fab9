ghost use Rattle.std.specs.Prelude.{◌≡◌};
ghost use Rattle.scenario_text.specs.Meaning.{keyword_of};

/// The first words of the lines behind the group line.
#[derive(Clone, Copy)]
pub enum Keyword {
    Ask,
    Collect,
    Deliver,
    Fail,
    Flush,
    Trace,
    Drain,
    Show,
    Places,
    Time,
    Stop,
}

/// The keyword that a word is.
#[tactic(auto, unfolding(crate::specs::Meaning::keyword_of))]
pub(crate) fn keyword_named(word: &[u8]) -> Option<Keyword>
    ensures { result ≡ keyword_of word.now }
{
    match word {
        _ if word == b"ask".as_slice() => Some(Keyword::Ask),
        _ if word == b"collect".as_slice() => Some(Keyword::Collect),
        _ if word == b"deliver".as_slice() => Some(Keyword::Deliver),
        _ if word == b"fail".as_slice() => Some(Keyword::Fail),
        _ if word == b"flush".as_slice() => Some(Keyword::Flush),
        _ if word == b"trace".as_slice() => Some(Keyword::Trace),
        _ if word == b"drain".as_slice() => Some(Keyword::Drain),
        _ if word == b"show".as_slice() => Some(Keyword::Show),
        _ if word == b"places".as_slice() => Some(Keyword::Places),
        _ if word == b"time".as_slice() => Some(Keyword::Time),
        _ if word == b"stop".as_slice() => Some(Keyword::Stop),
        _ => None,
    }
}
