use crate::callers::Callers;
use crate::serving::Serving;
use member_gateway::{Command, Outcome};
use std::alloc::AllocError;

const HEAD: &str =
    "# HELP cocytus_calls_total Calls of clients that ended, by command and by what came of them.
# TYPE cocytus_calls_total counter
";

/// The commands of memcached's protocol, with their names.
const COMMANDS: [(Command, &str); 11] = [
    (Command::Get, "get"),
    (Command::Set, "set"),
    (Command::Add, "add"),
    (Command::Replace, "replace"),
    (Command::Append, "append"),
    (Command::Prepend, "prepend"),
    (Command::Cas, "cas"),
    (Command::Delete, "delete"),
    (Command::Touch, "touch"),
    (Command::Incr, "incr"),
    (Command::Decr, "decr"),
];

impl<R, W, G: Callers> Serving<'_, R, W, G> {
    /// Writes how many calls ended, by command and by what came of them, behind a text.
    pub(crate) fn put_ended(&self, text: &mut String) -> Result<(), AllocError> {
        text.push_str(HEAD)?;
        'commands: for (command, name) in COMMANDS {
            self.put_ended_of(command, name, text)?;
        }
        Ok(())
    }

    fn put_ended_of(
        &self,
        command: Command,
        name: &str,
        text: &mut String,
    ) -> Result<(), AllocError> {
        let gateway = self.worker.gateway();
        let done = gateway.ended(command, Outcome::Done);
        let refused = gateway.ended(command, Outcome::Refused);
        let no_space = gateway.ended(command, Outcome::NoSpace);
        let lines = format!(in self.alloc;
            "cocytus_calls_total{{command=\"{name}\",result=\"done\"}} {done}\ncocytus_calls_total{{command=\"{name}\",result=\"refused\"}} {refused}\ncocytus_calls_total{{command=\"{name}\",result=\"no_space\"}} {no_space}\n"
        )?;
        text.push_str(lines.as_str())
    }

    /// How many calls ended since there was no space for their value.
    pub(crate) fn ended_for_space(&self) -> u64 {
        let mut count: u64 = 0;
        'commands: for (command, _) in COMMANDS {
            let of_command = self.worker.gateway().ended(command, Outcome::NoSpace);
            count = count.saturating_add(of_command);
        }
        count
    }
}
