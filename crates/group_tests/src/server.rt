// A group behind a port, as its clients see it: connections in memory that share one group, workers beside each other, a caller
// beside them, and clients of a port.
mod delivering;
mod ending;
mod gates;
mod narrow;
mod sharing;
mod sockets;
mod stages;
