// Single calls on atoms: casts, prints, what arguments are taken for, and signatures.
use crate::stops::{Stop, code};
use crate::trees::atom;
use crate::values::{joined, open, value, written_atoms};
use std::alloc::{AllocError, Global};
use sx_atoms::arguments::{argument, given, number, positions, text};
use sx_atoms::{
    Args, Atom, AtomType, Code, Positions, Signature, cast, castable, ceiling, floor, print, round,
};
use sx_fn_seq::{is_answerable, signature_seq};
use sx_fn_text::signature_text;
use sx_kinds::{ExprForm, Function};
use sx_names::Names;

// The most arguments that are tried.
const MOST: usize = 20;

// The atom that a cast gave, or its code.
fn outcome(alloc: Global, answer: &Result<Atom, Code>) -> Result<String, AllocError> {
    match answer {
        Ok(given) => atom(alloc, given),
        Err(failure) => code(alloc, *failure),
    }
}

// What a cast gives, and whether it can be done.
fn cast_both(alloc: Global, given: &Atom, to: AtomType) -> Result<String, AllocError> {
    let mut text = outcome(alloc, &cast(alloc, given, to)?)?;
    text.push_str(if castable(given, to) {
        ", castable"
    } else {
        ", not castable"
    })?;
    Ok(text)
}

/// `cast`: what a cast gives, and whether it can be done.
pub fn cast_of(alloc: Global, written: &str, names: &mut Names) -> Result<String, Stop> {
    let opened = open(alloc, written, names)?;
    match opened.form {
        ExprForm::Cast { to, .. } => Ok(cast_both(alloc, opened.operand(0)?, to)?),
        _ => Err(Stop::Unfit),
    }
}

/// What is asked for of the value of an expression.
#[derive(Clone, Copy)]
pub enum Asked {
    /// the value itself
    Value,
    /// the text of its one atom
    Print,
    /// the integers below, above and nearest to it
    Nearest,
    /// the text that it is as an argument
    Text,
    /// the number that it is as an argument
    Number,
}

fn printed(alloc: Global, atoms: &[Atom]) -> Result<String, Stop> {
    match atoms {
        [one] => {
            let text = print(alloc, one)?;
            Ok(format!(in alloc; "[{}]", text.as_str())?)
        }
        _ => Err(Stop::Unfit),
    }
}

fn nearest(alloc: Global, atoms: &[Atom]) -> Result<String, Stop> {
    match atoms {
        [Atom::Dec(d)] => {
            let (below, above, nearest) = (floor(*d), ceiling(*d), round(*d));
            Ok(format!(in alloc; "{below} {above} {nearest}")?)
        }
        _ => Err(Stop::Unfit),
    }
}

fn as_text(alloc: Global, atoms: &[Atom]) -> Result<String, Stop> {
    let text = text(atoms)?;
    Ok(format!(in alloc; "[{text}]")?)
}

fn as_number(alloc: Global, atoms: &[Atom]) -> Result<String, Stop> {
    match number(alloc, atoms)?? {
        Some(found) => Ok(atom(alloc, &found)?),
        None => Ok(String::from_str(alloc, "none")?),
    }
}

fn asked_of(alloc: Global, asked: Asked, atoms: &[Atom]) -> Result<String, Stop> {
    match asked {
        Asked::Value => Ok(written_atoms(alloc, atoms)?),
        Asked::Print => printed(alloc, atoms),
        Asked::Nearest => nearest(alloc, atoms),
        Asked::Text => as_text(alloc, atoms),
        Asked::Number => as_number(alloc, atoms),
    }
}

/// `value`, `print`, `nearest`, `argument-text` and `argument-number`: what is asked for of the value of an expression.
pub fn of_value(
    alloc: Global,
    asked: Asked,
    written: &str,
    names: &mut Names,
) -> Result<String, Stop> {
    let atoms = value(alloc, written, names)?;
    asked_of(alloc, asked, atoms.as_slice())
}

// What one or two numbers select.
fn selected(alloc: Global, numbers: &Args) -> Result<Positions, Stop> {
    Ok(positions(alloc, argument(numbers, 0), given(numbers, 1))??)
}

// Which of the positions 1 to 7 are selected, each behind a space.
fn selected_positions(alloc: Global, span: &Positions) -> Result<String, AllocError> {
    let mut all = String::new(alloc);
    for position in 1..8_u64 {
        if span.has(position) {
            let one = format!(in alloc; " {position}")?;
            all.push_str(one.as_str())?;
        }
    }
    Ok(all)
}

fn places(alloc: Global, span: &Positions) -> Result<String, AllocError> {
    let (from, to) = span.range(5);
    if from < to {
        return format!(in alloc; "places {from} to {to}");
    }
    String::from_str(alloc, "no places")
}

fn written_span(alloc: Global, span: &Positions) -> Result<String, AllocError> {
    let mut all = places(alloc, span)?;
    let positions = selected_positions(alloc, span)?;
    all.push_str(if positions.is_empty() {
        ", no positions"
    } else {
        ", positions"
    })?;
    all.push_str(positions.as_str())?;
    Ok(all)
}

/// `positions`: the places of 5 items, and which of the first 7 positions, one number or two select.
pub fn positions_of(alloc: Global, written: &str, names: &mut Names) -> Result<String, Stop> {
    let numbers = joined(alloc, written, names)?;
    let span = selected(alloc, &numbers)?;
    Ok(written_span(alloc, &span)?)
}

fn signature(function: Function) -> Signature {
    match function {
        Function::Text(f) => signature_text(f),
        Function::Seq(f) => signature_seq(f),
    }
}

fn is_answered(function: Function, count: usize) -> bool {
    match function {
        Function::Text(f) => count > 0 && signature_text(f).allows(count),
        Function::Seq(f) => is_answerable(f, count),
    }
}

// Writes the numbers of arguments of which something holds.
fn write_counts(function: Function, answered: bool, all: &mut String) -> Result<(), AllocError> {
    for count in 0..MOST {
        let holds = if answered {
            is_answered(function, count)
        } else {
            signature(function).allows(count)
        };
        if holds {
            let one = format!(in *all.allocator(); " {count}")?;
            all.push_str(one.as_str())?;
        }
    }
    Ok(())
}

fn written_signature(alloc: Global, function: Function) -> Result<String, AllocError> {
    let mut all = String::from_str(alloc, "takes")?;
    write_counts(function, false, &mut all)?;
    all.push_str(", answered")?;
    write_counts(function, true, &mut all)?;
    let signature = signature(function);
    let usages = format!(in alloc; ", {:?} {:?}", signature.first, signature.rest)?;
    all.push_str(usages.as_str())?;
    Ok(all)
}

/// `signature`: how many arguments the function of a call takes, with how many it is answered by its arguments alone, and what
/// it does with the nodes of the first one and of the others.
pub fn signature_of(alloc: Global, written: &str, names: &mut Names) -> Result<String, Stop> {
    let opened = open(alloc, written, names)?;
    match opened.form {
        ExprForm::Call { function, .. } => Ok(written_signature(alloc, function)?),
        _ => Err(Stop::Unfit),
    }
}
