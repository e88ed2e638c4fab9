// Several groups on nodes: which layouts are refused, that an event in another group's place counts nothing, and that the failure of a
// node costs each group one process.
mod events;
mod layouts;
