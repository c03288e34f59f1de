//! The program: the words of a command line, the files that they name, and what is printed.
//!
//! The contract of `relis_plain` and `relis` is the headline of the repository: what was written is the text
//! that the words and the files lead to, and a report that is written is right. `main` is the edge: it hands
//! the words of the system, the files of its folder and standard output to `exit_of`, whose contract says with
//! which number the program ends.
#![tactic(auto)]

mod audit;
mod check;
mod decide;
mod drive;
mod exit;
mod judge;
pub mod laws;
mod lines;
mod made;
mod reading;
mod run;
mod status;
#[cfg(test)]
mod tests;
mod top;

pub use exit::exit_of;
use rl_outside::{DirFiles, OpenGate, StdSink};
pub use status::Status;
use std::env;
use std::process::ExitCode;
pub use top::{relis, relis_plain};

fn main(rt: HostRuntime) -> ExitCode {
    let mut files = DirFiles::new(&rt, rt.alloc());
    let mut out = StdSink::new(&rt);
    exit_of(
        &rt,
        rt.alloc(),
        env::args(&rt),
        &mut files,
        &mut out,
        &OpenGate,
    )
}
