//! Rows of runs: each line of the input names a call and its texts, and is printed with what the call gives.
#![tactic(auto)]

mod calls;
mod consumers;
mod desks;
mod endings;
mod events;
mod printing;
mod sessions;
mod settings;
mod statuses;
mod stylesheets;
mod texts;

use settings::Settings;
use std::alloc::{AllocError, Global};
use std::io;

// What a call gives, where there is such a call.
fn called(
    alloc: Global,
    word: &str,
    settings: &Settings,
    texts: &str,
) -> Result<String, AllocError> {
    match word {
        "words" => calls::words(alloc, texts),
        "call" => calls::call(alloc, settings, texts),
        "copy" => calls::copy(alloc, settings, texts),
        "run" => calls::run(alloc, settings, texts),
        "transform" => calls::transformation(alloc, settings, texts),
        "sheet" => stylesheets::loaded(alloc, settings, texts),
        "events" => stylesheets::of_events(alloc, texts),
        "session" => sessions::session(alloc, settings, texts),
        "echo" => consumers::transferred(alloc, settings, texts),
        "status" => statuses::status(alloc, texts),
        _ => format!(in alloc; "no such call"),
    }
}

// What a row asks for.
fn answer(alloc: Global, row: &str) -> Result<String, AllocError> {
    let Some((head, texts)) = row.split_once(" : ") else {
        return format!(in alloc; "no row");
    };
    let (word, listed) = head.split_once(' ').unwrap_or((head, ""));
    match settings::listed(listed) {
        Some(settings) => called(alloc, word, &settings, texts),
        None => format!(in alloc; "no such setting"),
    }
}

// A line of the output: a row with its answer, or a line that is no row.
fn shown(alloc: Global, line: &str) -> Result<String, AllocError> {
    if line.is_empty() || line.starts_with('#') {
        return String::from_str(alloc, line);
    }
    let answer = answer(alloc, line)?;
    format!(in alloc; "{line} => {answer}")
}

fn main(rt: HostRuntime) -> io::Result<()> {
    for line in rt.lines(rt.alloc()) {
        let text = shown(rt.alloc(), line?.as_str())?;
        println!(rt; "{text}")?;
    }
    Ok(())
}
