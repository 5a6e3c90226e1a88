// Names as texts, the numbers of names, and the namespaces that prefixes are bound to.
ghost use Rattle.std.specs.Prelude.{◌≡◌, length};

use crate::notation::{append_word, name_parts, show, text_of};
use std::alloc::{AllocError, Global};
use sx_chars::{is_ncname, is_qname, split_instruction, split_name};
use sx_names::{Names, Scope};

/// Which names a text is.
pub fn kinds(alloc: Global, text: &str) -> Result<String, AllocError> {
    let name = text_of(alloc, text)?;
    let kinds = match (is_ncname(name.as_str()), is_qname(name.as_str())) {
        (true, true) => "NCName, QName",
        (true, false) => "NCName",
        (false, true) => "QName",
        (false, false) => "neither",
    };
    String::from_str(alloc, kinds)
}

// Two texts, each in brackets.
fn in_brackets(alloc: Global, first: &str, second: &str) -> Result<String, AllocError> {
    let mut out = String::from_str(alloc, "[")?;
    show(&mut out, first)?;
    out.push_str("] [")?;
    show(&mut out, second)?;
    out.push(']')?;
    Ok(out)
}

/// A name's prefix and local part.
pub fn split(alloc: Global, text: &str) -> Result<String, AllocError> {
    let name = text_of(alloc, text)?;
    let (prefix, local) = split_name(name.as_str());
    in_brackets(alloc, prefix, local)
}

/// A processing instruction's target and content.
pub fn instruction(alloc: Global, text: &str) -> Result<String, AllocError> {
    let instruction = text_of(alloc, text)?;
    let (target, content) = split_instruction(instruction.as_str());
    in_brackets(alloc, target, content)
}

// The name that has this number.
fn name_of(alloc: Global, names: &Names, number: u64) -> Result<String, AllocError> {
    if !names.has(number) {
        return String::from_str(alloc, "none");
    }
    format!(in alloc; "{{{}}}{}", names.uri(number), names.local(number))
}

// The number of a name that is there.
fn number_of(alloc: Global, names: &Names, name: &str) -> Result<String, AllocError> {
    let (_, uri, local) = name_parts(name);
    match names.find(uri, local) {
        Some(number) => format!(in alloc; "{number}"),
        None => String::from_str(alloc, "none"),
    }
}

// A question for a name or a number, or a name that comes.
fn number(alloc: Global, names: &mut Names, step: &str) -> Result<String, AllocError> {
    if let Some(name) = step.strip_prefix('?') {
        return number_of(alloc, names, name);
    }
    if let Some(number) = step.strip_prefix('#') {
        return name_of(alloc, names, number.parse::<u64>().unwrap_or(u64::MAX));
    }
    let (_, uri, local) = name_parts(step);
    let number = names.intern(uri, local)?;
    format!(in alloc; "{number}")
}

// The answers to what comes in turn.
fn all_numbers(alloc: Global, names: &mut Names, steps: &str) -> Result<String, AllocError> {
    let mut out = String::new(alloc);
    for step in steps.split(' ') {
        let answer = number(alloc, names, step)?;
        append_word(&mut out, answer.as_str())?;
    }
    Ok(out)
}

/// The answers of a table of names to what comes in turn.
pub fn numbers(alloc: Global, text: &str) -> Result<String, AllocError> {
    let mut names = sx_names::new(alloc);
    all_numbers(alloc, &mut names, text)
}

// A scope, and how many elements were entered and not left.
#[derive(Drop)]
struct Entered {
    scope: Scope,
    elements: u64,
    ghost counted: { elements ≡ length scope },
}

impl Entered {
    fn enter(&mut self) -> Result<(), AllocError> {
        if let Some(elements) = self.elements.checked_add(1) {
            self.scope.enter()?;
            self.elements = elements;
        }
        Ok(())
    }

    fn leave(&mut self) {
        if self.elements > 0 {
            self.scope.leave();
            self.elements -= 1;
        }
    }

    fn declare(&mut self, prefix: &str, uri: &str) -> Result<(), AllocError> {
        if self.elements > 0 {
            self.scope.declare(prefix, uri)?;
        }
        Ok(())
    }

    fn take(&mut self, step: &str) -> Result<(), AllocError> {
        if step == "(" {
            return self.enter();
        }
        if step == ")" {
            self.leave();
            return Ok(());
        }
        match step.split_once('=') {
            Some((prefix, uri)) => self.declare(prefix, uri),
            None => Ok(()),
        }
    }
}

// What a prefix is bound to.
fn binding(alloc: Global, scope: &Scope, prefix: &str) -> Result<String, AllocError> {
    match scope.lookup(prefix) {
        Some(uri) => format!(in alloc; "[{uri}]"),
        None => String::from_str(alloc, "none"),
    }
}

// Takes a step, or appends the answer to a question.
fn append_binding(
    alloc: Global,
    entered: &mut Entered,
    out: &mut String,
    step: &str,
) -> Result<(), AllocError> {
    match step.strip_prefix('?') {
        Some(prefix) => {
            let answer = binding(alloc, &entered.scope, prefix)?;
            append_word(out, answer.as_str())
        }
        None => entered.take(step),
    }
}

// The answers to what comes in turn.
fn all_bindings(alloc: Global, entered: &mut Entered, steps: &str) -> Result<String, AllocError> {
    let mut out = String::new(alloc);
    for step in steps.split(' ') {
        append_binding(alloc, entered, &mut out, step)?;
    }
    Ok(out)
}

/// What prefixes are bound to where elements are entered, declare namespaces, and are left.
pub fn bindings(alloc: Global, text: &str) -> Result<String, AllocError> {
    let mut entered = Entered {
        scope: Scope::new(alloc),
        elements: 0,
    };
    all_bindings(alloc, &mut entered, text)
}
