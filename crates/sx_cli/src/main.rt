//! The program: the words of the command line, the real files and outputs, and the status of the one call over them.
#![tactic(auto)]

use std::env;
use std::io::{Error, ErrorKind};
use std::process::ExitCode;
use sx_desk::RealDesk;
use sx_reading::Status;
use sx_top::top;

// Memory was wanting, or a word is no text.
fn status_of(error: &Error) -> Status {
    if error.kind() == ErrorKind::OutOfMemory {
        Status::OutOfMemory
    } else {
        Status::Usage
    }
}

fn main(rt: HostRuntime) -> ExitCode {
    let alloc = rt.alloc();
    let words = match env::args(&rt) {
        Ok(words) => words.skip(1).collect::<Vec<String>>(alloc),
        Err(error) => return ExitCode::from(status_of(&error).number()),
    };
    let status = match (words, RealDesk::new(alloc, &rt)) {
        (Ok(words), Ok(mut desk)) => top(alloc, &words, &mut desk),
        _ => Status::OutOfMemory,
    };
    ExitCode::from(status.number())
}
