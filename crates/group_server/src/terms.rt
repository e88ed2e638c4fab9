use group_config::Settings;

/// By what a group is served: its settings, a gate before each connection, whom a person's messages go to, and a clock.
#[derive(Drop)]
pub struct Terms<'s, G, N, T> {
    pub settings: &'s Settings,
    pub gate: &'s G,
    pub notice: &'s N,
    pub clock: &'s T,
}
