//! Cases, one a line, from the lines of a document to the lines of a result. The head of `stdin` says how they are written.
#![tactic(auto)]

mod asked;
mod axes;
mod branches;
mod copies;
mod documents;
mod naming;
mod nodes;
mod notation;
mod printed;
mod sources;

use std::alloc::{AllocError, Global};
use std::io;

// The answer to a case: a word, and the text behind it.
fn answer(alloc: Global, word: &str, text: &str) -> Result<String, AllocError> {
    match word {
        "name" => naming::kinds(alloc, text),
        "split" => naming::split(alloc, text),
        "instruction" => naming::instruction(alloc, text),
        "names" => naming::numbers(alloc, text),
        "scope" => naming::bindings(alloc, text),
        "lines" => documents::lines(alloc, text),
        "events" => documents::events(alloc, text),
        "fault" => documents::fault(alloc, text),
        "tree" => branches::tree(alloc, text),
        "spine" => branches::spine(alloc, text),
        "nodes" => nodes::tree(alloc, text),
        "spine-nodes" => nodes::spine(alloc, text),
        "axis" => axes::axis(alloc, text),
        "spine-axis" => axes::of_spine(alloc, text),
        "order" => axes::order(alloc, text),
        "sheet" => copies::sheet(alloc, text),
        "chain" => copies::chain(alloc, text),
        "build" => asked::at_the_end(alloc, text),
        "steps" => asked::step_by_step(alloc, text),
        "print" => printed::printed(alloc, text),
        "read-back" => printed::read(alloc, text),
        _ => String::from_str(alloc, "no such word"),
    }
}

// A line with its answer. An empty one and one that begins with `#` are passed on as they are.
fn answered(alloc: Global, line: &str) -> Result<String, AllocError> {
    if line.is_empty() || line.starts_with('#') {
        return String::from_str(alloc, line);
    }
    let (word, text) = line.split_once(' ').unwrap_or((line, ""));
    let answer = answer(alloc, word, text)?;
    format!(in alloc; "{line} => {}", answer.as_str())
}

fn main(rt: HostRuntime) -> io::Result<()> {
    for line in rt.lines(rt.alloc()) {
        let text = answered(rt.alloc(), line?.as_str())?;
        println!(rt; "{text}")?;
    }
    Ok(())
}
