// Groups that threads share.
mod calls;
mod counting;
mod row;
