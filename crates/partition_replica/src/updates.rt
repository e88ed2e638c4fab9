use group_message::Update;
use group_types::Key;
use request_log::Numbering;

/// Updates as a log holds them, by their number and their key.
pub struct Updates;

impl Numbering for Updates {
    type Item = Update;

    type Key = Key;

    ghost number_of = { λ update. update.number };

    ghost key_of = { λ update. update.key };

    fn number(item: &Update) -> u64 {
        item.number
    }

    fn key(item: &Update) -> &Key {
        &item.key
    }
}
