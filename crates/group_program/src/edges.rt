/// What a run of the program reaches outside: its input and output, a port, a machine and a clock.
#[derive(Drop)]
pub struct Edges<S, K, L, M, T> {
    pub source: S,
    pub sink: K,
    pub port: L,
    pub machine: M,
    pub clock: T,
}
