// Callers over a group that threads share.
mod acts;
mod alone;
mod dying;
mod heads;
mod losing;
mod own_keys;
mod place;
