/// How urgent a line is, by the levels of syslog.
#[derive(Clone, Copy, Debug, PartialEq, Eq)]
pub enum Level {
    /// Somebody has to act, or this member ends.
    Warning,
    /// The group changed.
    Notice,
    /// All is as it should be.
    Info,
}

impl Level {
    /// What `systemd` reads in front of a line of this level.
    pub fn prefix(self) -> &'static str {
        match self {
            Level::Warning => "<4>",
            Level::Notice => "<5>",
            Level::Info => "<6>",
        }
    }
}

/// Hears what a person wants to know of a member. It changes nothing else.
pub trait Report {
    /// A line without its end, and how urgent it is.
    fn line(&self, level: Level, text: &str);
}
