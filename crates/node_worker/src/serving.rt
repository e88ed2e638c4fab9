/// By what connections are served: the port that lends a caller for each, a gate before it, and a clock; how many are served
/// side by side, and after how many accepted ones none is accepted any more, 0 for never.
#[derive(Drop)]
pub struct Serving<'s, P, G, T> {
    pub port: &'s P,
    pub gate: &'s G,
    pub clock: &'s T,
    pub workers: u32,
    pub connections: u64,
}
