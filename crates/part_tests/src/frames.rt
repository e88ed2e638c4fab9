// Frames against an independent model of them: a stream of all kinds cut at each byte, its messages written again, and frames that
// are no spelling.
mod cuts;
mod streams;
mod wrong;
