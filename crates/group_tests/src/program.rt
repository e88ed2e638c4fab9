// What the program writes and how it ends where a dialogue can't be told by files: cut scripts, limits, a clock that goes on, clients
// that hear each other.
pub(crate) mod clocks;
mod cuts;
mod door;
mod ends;
mod limits;
pub(crate) mod runs;
mod sharing;
mod turns;
