//! A member of a group as a program: its links, its clients and its operator, served by one thread in turns. The contract says that
//! each call is safe and each turn ends. What the system's streams bring, and when, is left to tests.
#![tactic(auto)]

mod answering;
mod answers;
mod callers;
mod calls_ended;
mod client_port;
mod client_stream;
mod clients;
mod control;
mod control_line;
mod deaths;
mod link_status;
mod listing;
mod lost;
mod machine_links;
mod members;
mod metrics;
mod moving;
mod names;
mod net_machine;
mod noting;
mod operator;
mod page;
mod partitions;
mod patience;
mod peers;
mod place;
mod ports;
mod readiness;
mod report;
mod said;
mod seats;
mod serving;
mod space;
mod status;
mod tally;
mod telling;
mod turn_clock;
mod turning;
mod waiting;

pub use net_machine::NetMachine;
pub use report::{Level, Report};
