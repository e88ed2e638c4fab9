use std::alloc::{AllocError, Global};

/// A key of the run, the process of its home, and the lines of the log that set it, that read it the second time, and
/// that miss it then.
#[derive(Clone, Copy)]
pub(crate) struct Key {
    name: &'static str,
    home: &'static str,
    stored: &'static str,
    read: &'static str,
    missed: &'static str,
}

pub(crate) const KEYS: [Key; 3] = [
    Key {
        name: "g",
        home: "d0",
        stored: "= 0.0 set g 0 01 stored",
        read: "= 1.1 get g value 0 1 01",
        missed: "= 1.1 get g miss",
    },
    Key {
        name: "a",
        home: "d1",
        stored: "= 0.1 set a 0 02 stored",
        read: "= 1.3 get a value 0 1 02",
        missed: "= 1.3 get a miss",
    },
    Key {
        name: "c",
        home: "d2",
        stored: "= 0.2 set c 0 03 stored",
        read: "= 1.5 get c value 0 1 03",
        missed: "= 1.5 get c miss",
    },
];

impl Key {
    /// Two reads at the process that heads the key's partition once a process is lost.
    pub(crate) fn reads(&self, alloc: Global, lost: &str) -> Result<String, AllocError> {
        let at = if self.home == lost { "p0" } else { self.home };
        let name = self.name;
        format!(in alloc; "ask 1 {at} get {name}\ndrain\nask 1 {at} get {name}\n")
    }

    // A set that is logged is read, and one that isn't was of the process that is lost.
    fn is_read(&self, transcript: &str, lost: &str) -> bool {
        if has_line(transcript, self.stored) {
            has_line(transcript, self.read)
        } else {
            self.home == lost && has_line(transcript, self.missed)
        }
    }
}

/// Whether each key is read as it was stored.
pub(crate) fn are_read(transcript: &str, lost: &str) -> bool {
    'keys: for key in KEYS {
        if !key.is_read(transcript, lost) {
            return false;
        }
    }
    true
}

fn has_line(text: &str, line: &str) -> bool {
    'lines: for one in text.lines() {
        if one == line {
            return true;
        }
    }
    false
}
