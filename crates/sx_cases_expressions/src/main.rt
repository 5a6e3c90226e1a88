//! Cases of expressions as rows: prints each line of the input with the answer of the call that it names. The first lines of
//! the input say how rows are written.
#![tactic(auto)]

mod arguments;
mod notation;
mod readings;
mod stops;
mod trees;
mod types;
mod values;

use arguments::{Asked, of_value};
use notation::{expanded, folded};
use readings::Shown;
use std::alloc::{AllocError, Global};
use std::io;
use stops::{Stop, told};
use sx_names::Names;

fn of_value_word(alloc: Global, word: &str, text: &str, names: &mut Names) -> Result<String, Stop> {
    match word {
        "value" => of_value(alloc, Asked::Value, text, names),
        "print" => of_value(alloc, Asked::Print, text, names),
        "nearest" => of_value(alloc, Asked::Nearest, text, names),
        "argument-text" => of_value(alloc, Asked::Text, text, names),
        "argument-number" => of_value(alloc, Asked::Number, text, names),
        "cast" => arguments::cast_of(alloc, text, names),
        "positions" => arguments::positions_of(alloc, text, names),
        "signature" => arguments::signature_of(alloc, text, names),
        _ => Err(Stop::Unfit),
    }
}

fn of_type_word(alloc: Global, word: &str, text: &str, names: &mut Names) -> Result<String, Stop> {
    match word {
        "type" => types::type_in_document(alloc, text, names),
        "type-in-copy" => types::type_in_copy(alloc, text, names),
        "settle" => types::settle_twice(alloc, text, names),
        "settle-pattern" => types::settle_in_pattern(alloc, text, names),
        _ => of_value_word(alloc, word, text, names),
    }
}

fn of_word(alloc: Global, word: &str, text: &str, names: &mut Names) -> Result<String, Stop> {
    match word {
        "tokens" => readings::tokens_of(alloc, text),
        "read" => readings::expression(alloc, Shown::Tree, text, names),
        "number" => readings::expression(alloc, Shown::Numbers, text, names),
        "copy" => readings::expression(alloc, Shown::Copy, text, names),
        "pattern" => readings::pattern(alloc, Shown::Tree, text, names),
        "number-pattern" => readings::pattern(alloc, Shown::Numbers, text, names),
        "template" => readings::template(alloc, Shown::Tree, text, names),
        "number-template" => readings::template(alloc, Shown::Numbers, text, names),
        "names" => readings::names_of(alloc, text, names),
        _ => of_type_word(alloc, word, text, names),
    }
}

fn answer(alloc: Global, word: &str, text: &str) -> Result<String, AllocError> {
    let mut names = sx_names::new(alloc);
    told(alloc, of_word(alloc, word, text, &mut names))
}

fn row(alloc: Global, line: &str) -> Result<String, AllocError> {
    if line.is_empty() || line.starts_with('#') {
        return String::from_str(alloc, line);
    }
    let (word, written) = line.split_once(' ').unwrap_or((line, ""));
    let text = expanded(alloc, written)?;
    let answer = answer(alloc, word, text.as_str())?;
    let folded = folded(alloc, answer.as_str())?;
    format!(in alloc; "{line} => {folded}")
}

fn main(rt: HostRuntime) -> io::Result<()> {
    for line in rt.lines(rt.alloc()) {
        let text = row(rt.alloc(), line?.as_str())?;
        println!(rt; "{text}")?;
    }
    Ok(())
}
