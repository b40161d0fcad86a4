//! The program: it hands its words, the files and the output to `fleet_cli::program`, and ends with what this answers.
//! Nothing else is decided here.
#![tactic(auto)]

use fleet_cli::program;
use plan_desk::{FileDesk, StdSink};
use std::env;
use std::process::ExitCode;

fn main(rt: HostRuntime) -> ExitCode {
    let mut desk = FileDesk::new(&rt);
    let mut out = StdSink::new(&rt);
    program(rt.alloc(), env::args(&rt), &mut desk, &mut out)
}
