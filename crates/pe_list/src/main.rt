//! Reads a PE file on standard input and lists it: its header, its sections, imports, exports and
//! base relocations, a line each.
#![tactic(auto)]

mod command;
mod fault;
mod program;
mod transfer;
mod watched;

use command::{USAGE, mode_of};
use program::run;
use std::process::ExitCode;
use std::{env, io};
use watched::Watched;

fn main(rt: HostRuntime) -> ExitCode {
    let words = match env::args(&rt) {
        Ok(words) => words,
        Err(e) if e.kind() == io::ErrorKind::OutOfMemory => return complain(
            &rt,
            "out of memory",
            1,
        ),
        Err(_) => return complain(&rt, USAGE, 2),
    };
    let Some(mode) = mode_of(words) else {
        return complain(&rt, USAGE, 2);
    };
    let mut reader = Watched::new(rt.stdin());
    let mut writer = Watched::new(rt.stdout());
    match run(rt.alloc(), &mut reader, &mut writer, mode) {
        Ok(()) => ExitCode::SUCCESS,
        Err(fault) => complain(&rt, fault.line(), 1),
    }
}

// Prints one line on standard error, and returns the status. A line that can't be written changes
// nothing.
fn complain(rt: &impl Eprint, line: &str, status: u8) -> ExitCode {
    let _ = rt.eprintln(line);
    ExitCode::from(status)
}
