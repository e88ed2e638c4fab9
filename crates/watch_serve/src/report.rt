/// Hears what a person wants to know of a member that is watched. It changes nothing else.
pub trait WatchReport {
    /// A line without its end, by which somebody has to act.
    fn warn(&self, text: &str);

    /// A line without its end, of what changed.
    fn note(&self, text: &str);
}
