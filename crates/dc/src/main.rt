//! The program: files of the system, standard output, and the status.
#![tactic(auto)]

use dc_io::{FileShelf, Open, OutSink};
use dc_top::command;
use std::alloc::Global;
use std::env;
use std::io::{self, ErrorKind, IsTerminal};
use std::process::ExitCode;

// The status for want of memory.
const NO_MEMORY: u8 = 7;

// The words behind the program's name.
fn words(rt: &HostRuntime, alloc: Global) -> io::Result<Vec<String>> {
    let mut words = env::args(rt)?;
    let _program = words.next();
    Ok(words.collect(alloc)?)
}

fn main(rt: HostRuntime) -> ExitCode {
    let alloc = rt.alloc();
    let words = match words(&rt, alloc) {
        Ok(words) => words,
        // A word that is no text is of no form.
        Err(fault) if fault.kind() == ErrorKind::InvalidData => Vec::new(alloc),
        Err(_) => return ExitCode::from(NO_MEMORY),
    };
    let mut shelf = FileShelf::new(rt);
    // With a terminal, lines appear as they come.
    let lines_at_once = rt.stdout().is_terminal();
    let Ok(mut sink) = OutSink::new(alloc, rt.stdout(), lines_at_once) else {
        return ExitCode::from(NO_MEMORY);
    };
    ExitCode::from(command(&rt, alloc, words.as_slice(), &mut shelf, &mut sink, &Open))
}
