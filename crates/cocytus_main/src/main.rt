//! The program: it makes the real input, output, port, machines and clock, and hands them to `run_words` with what the
//! system says of the arguments. The contract of `run_words` says what is written, when each status comes, and that its
//! number is what the program ends with. What standard input and output, the port and the machine's sockets really give
//! and take is left to the system, and so is what a person reads on standard error.
#![tactic(auto)]

mod kept_source;
mod person;
mod system;

use carry_serve::NetCarrier;
use edge_io::{ReadEdge, SystemClock, WriteEdge};
use group_program::{Edges, run_words};
use kept_source::KeptSource;
use member_serve::NetMachine;
use person::Person;
use ready_worker::ToldEdge;
use std::env;
use std::process::ExitCode;
use system::System;
use tcp_edge::TcpEdge;
use watch_serve::NetWatcher;

fn main(rt: HostRuntime) -> ExitCode {
    let person = Person::new(rt);
    let mut edges = Edges {
        source: KeptSource::new(rt.alloc(), ReadEdge::new(rt.stdin())),
        sink: WriteEdge::new(rt.stdout()),
        port: ToldEdge::new(TcpEdge::new(&rt), &person),
        machine: System {
            member: NetMachine::new(rt.alloc(), &rt, &person),
            watcher: NetWatcher::new(rt.alloc(), &rt, &person),
            carrier: NetCarrier::new(rt.alloc(), &rt, &person),
        },
        clock: SystemClock::new(&rt),
    };
    run_words(&rt, rt.alloc(), env::args(&rt), &mut edges, &person)
}
