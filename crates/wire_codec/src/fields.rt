//! What a codec of other frames reads and writes its fields with: numbers, keys, processes, and whole texts of messages.

pub use crate::cut::{MOST, announced_len};
pub use crate::fault::ReadFault;
pub use crate::numbers::{take, take_eight, take_four, take_one, take_two};
pub use crate::put_message::{put_process, put_text_before, put_text_behind};
pub use crate::put_numbers::{put_eight, put_four, put_one, put_short, put_two};
pub use crate::take_fields::take_process;
pub use crate::take_message::read_message;
pub use crate::take_update::{take_key, take_long};
