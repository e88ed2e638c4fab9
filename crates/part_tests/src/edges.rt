// Sources, sinks, a listener and clocks: how they fail, and what they do about errors of the system.
mod clocks;
mod memory;
mod reading;
mod writing;
