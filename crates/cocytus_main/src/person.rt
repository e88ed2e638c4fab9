use crate::kept_source::KeptSource;
use carry_serve::CarryReport;
use edge_io::{WriteEdge, write_all};
use group_program::{Explain, Finding, Notice, Settings, Status, help_at, loss_of, notice_of};
use group_types::ProcessId;
use member_serve::{Level, Report};
use ready_worker::{ToldEdge, Watch};
use std::net::SocketAddr;
use std::{env, io};
use watch_serve::WatchReport;

/// The one who reads standard error. What is told there is no part of the output, and whether it could be written changes
/// nothing.
#[derive(Drop)]
pub(crate) struct Person {
    rt: HostRuntime,
    // Whether the system's journal reads it, which takes a level in front of a line.
    has_journal: bool,
}

impl Person {
    pub(crate) fn new(rt: HostRuntime) -> Person {
        Person {
            rt,
            has_journal: env::var(&rt, "JOURNAL_STREAM").is_ok(),
        }
    }

    fn say_error(&self, error: Option<&io::Error>) {
        if let Some(error) = error {
            if let Ok(line) = format!(in self.rt.alloc(); "{error}\n") {
                self.say(&line);
            }
        }
    }

    fn say_at(&self, level: Level, text: &str) {
        let prefix = if self.has_journal { level.prefix() } else { "" };
        if let Ok(line) = format!(in self.rt.alloc(); "{prefix}{text}\n") {
            self.say(&line);
        }
    }

    fn say(&self, text: &str) {
        let _ = write_all(&mut WriteEdge::new(self.rt.stderr()), text.as_bytes());
    }
}

impl<'w, S, N, W: Watch> Explain<KeptSource<S>, ToldEdge<'w, N, W>> for Person {
    fn explain(
        &self,
        words: &[String],
        status: Status,
        source: &KeptSource<S>,
        port: &ToldEdge<'w, N, W>,
    ) {
        if let Ok(help) = help_at(self.rt.alloc(), words, status, source.kept()) {
            self.say(&help);
        }
        self.say_error(port.last_error());
    }
}

impl Notice for Person {
    fn tell(&self, settings: &Settings) {
        if let Ok(text) = notice_of(self.rt.alloc(), settings) {
            self.say(&text);
        }
    }

    fn refuse(&self, finding: &Finding) {
        if let Ok(line) = format!(in self.rt.alloc(); "settings: {finding}") {
            self.say_at(Level::Warning, &line);
        }
    }

    fn lose(&self, at: ProcessId, lost: u64, most: u32) {
        if let Ok(text) = loss_of(self.rt.alloc(), at, lost, most) {
            self.say_at(Level::Warning, &text);
        }
    }
}

impl Report for Person {
    fn line(&self, level: Level, text: &str) {
        self.say_at(level, text);
    }
}

impl CarryReport for Person {
    fn warn(&self, text: &str) {
        self.say_at(Level::Warning, text);
    }

    fn note(&self, text: &str) {
        self.say_at(Level::Notice, text);
    }
}

impl WatchReport for Person {
    fn warn(&self, text: &str) {
        self.say_at(Level::Warning, text);
    }

    fn note(&self, text: &str) {
        self.say_at(Level::Notice, text);
    }
}

impl Watch for Person {
    fn listens(&self, at: SocketAddr) {
        if let Ok(line) = format!(in self.rt.alloc(); "listens at {at}\n") {
            self.say(&line);
        }
    }

    fn fails(&self, error: Option<&io::Error>) {
        self.say_at(
            Level::Warning,
            "connections can't be accepted, which is tried again",
        );
        self.say_error(error);
    }

    fn is_full(&self) {
        self.say_at(
            Level::Warning,
            "no descriptor is left: further connections are told so and closed",
        );
    }

    fn refuses(&self, open: u64) {
        if let Ok(line) = format!(in self.rt.alloc();
            "{open} connections are open: further ones are told so and closed"
        ) {
            self.say_at(Level::Warning, &line);
        }
    }

    fn recovers(&self) {
        self.say_at(Level::Notice, "connections are accepted again");
    }
}
