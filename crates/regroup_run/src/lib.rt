//! What a script makes of a group over eras: what its lines do, the transcript that is written for them, and the first
//! line that is refused, as definitions over eras. But for `regroup` a line is read, and what is answered is written, by
//! the definitions for scripts of one group. The contract says that every script's eras keep the promises of eras.
//! Reading and writing are left to the crates above.
#![tactic(auto)]

pub mod laws;
