/// Hears what a person wants to know of a carry. It changes nothing else.
pub trait CarryReport {
    /// A line without its end, by which somebody has to act.
    fn warn(&self, text: &str);

    /// A line without its end, of how it goes on.
    fn note(&self, text: &str);
}
