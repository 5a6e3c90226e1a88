// Texts, their tokens, and what they are read as.
ghost use Rattle.std.specs.Prelude.{◌≡◌, ◌<◌, ◌^◌};

use crate::stops::{Stop, told};
use crate::trees::{LINE, list, name, tree, write_expr, write_numbers};
use sqlite_items::Items;
use std::alloc::{AllocError, Global};
use sx_kinds::{AvtPart, AvtParts, Construct, Expr, Pattern};
use sx_lex::{Token, TokenKind, tokens};
use sx_names::{Names, Scope};
use sx_parse::{Numbering, parse_avt, parse_expr, parse_pattern};

// Two elements are open. The inner one hides a binding of the outer one, which has a default namespace, too.
fn bindings(alloc: Global) -> Result<Scope, AllocError> {
    let mut scope = Scope::new(alloc);
    scope.enter()?;
    scope.declare("", "urn:default")?;
    scope.declare("fn", "http://www.w3.org/2005/xpath-functions")?;
    scope.declare("xs", "http://www.w3.org/2001/XMLSchema")?;
    scope.declare("p", "urn:outer")?;
    scope.enter()?;
    scope.declare("p", "urn:p")?;
    Ok(scope)
}

/// The number from which constructs are counted, and the line that they have.
pub fn begin() -> Numbering
    ensures { result.next ≡ 5 }
{
    Numbering {
        next: 5,
        line: LINE,
    }
}

/// Reads an expression.
#[inline(never)]
pub fn read(alloc: Global, text: &str, names: &mut Names, at: &mut Numbering) -> Result<Expr, Stop>
    requires { at.old.next < 2 ^ 62 }
{
    let scope = bindings(alloc)?;
    Ok(parse_expr(alloc, text, &scope, names, at)??)
}

/// Reads a pattern.
#[inline(never)]
pub fn read_pattern(
    alloc: Global,
    text: &str,
    names: &mut Names,
    at: &mut Numbering,
) -> Result<Pattern, Stop>
    requires { at.old.next < 2 ^ 62 }
{
    let scope = bindings(alloc)?;
    Ok(parse_pattern(alloc, text, &scope, names, at)??)
}

#[inline(never)]
fn read_template(
    alloc: Global,
    text: &str,
    names: &mut Names,
    at: &mut Numbering,
) -> Result<AvtParts, Stop>
    requires { at.old.next < 2 ^ 62 }
{
    let scope = bindings(alloc)?;
    Ok(parse_avt(alloc, text, &scope, names, at)??)
}

// A text, or a word in place of an empty one.
fn or_none(alloc: Global, text: String) -> Result<String, AllocError> {
    if text.is_empty() {
        return String::from_str(alloc, "none");
    }
    Ok(text)
}

/// What is shown of what a text is read as.
#[derive(Clone, Copy)]
pub enum Shown {
    /// the tree
    Tree,
    /// the numbers of its constructs, and where counting goes on
    Numbers,
    /// the tree of a copy
    Copy,
}

fn constructs(alloc: Global, e: &Expr) -> Result<Items<Construct>, AllocError> {
    let mut found = Items::new(alloc);
    list(e, &mut found)?;
    Ok(found)
}

fn has_numbers_of(alloc: Global, copy: &Expr, e: &Expr) -> Result<bool, AllocError> {
    let of_copy = constructs(alloc, copy)?;
    let of_original = constructs(alloc, e)?;
    Ok(of_copy.as_slice() == of_original.as_slice())
}

// A copy of an expression as a tree, and whether its constructs have the same numbers.
fn copied(alloc: Global, e: &Expr, names: &Names) -> Result<String, AllocError> {
    let copy = Expr::copy(alloc, e)?;
    let mut text = tree(alloc, &copy, names)?;
    text.push_str(if has_numbers_of(alloc, &copy, e)? {
        ", the same numbers"
    } else {
        ", other numbers"
    })?;
    Ok(text)
}

// Constructs with their numbers, and where counting goes on.
fn counted(
    alloc: Global,
    front: &str,
    found: &Items<Construct>,
    at: Numbering,
) -> Result<String, AllocError> {
    let mut all = String::from_str(alloc, front)?;
    write_numbers(found.as_slice(), &mut all)?;
    if all.is_empty() {
        all.push_str("none")?;
    }
    let behind = format!(in alloc; "; {} on {}", at.next, at.line)?;
    all.push_str(behind.as_str())?;
    Ok(all)
}

fn written_as(
    alloc: Global,
    asked: Shown,
    e: &Expr,
    names: &Names,
    at: Numbering,
) -> Result<String, AllocError> {
    match asked {
        Shown::Tree => tree(alloc, e, names),
        Shown::Numbers => counted(alloc, "", &constructs(alloc, e)?, at),
        Shown::Copy => copied(alloc, e, names),
    }
}

/// `read`, `number` and `copy`: what is asked for of an expression.
pub fn expression(
    alloc: Global,
    asked: Shown,
    text: &str,
    names: &mut Names,
) -> Result<String, Stop> {
    let mut at = begin();
    let e = read(alloc, text, names, &mut at)?;
    Ok(written_as(alloc, asked, &e, names, at)?)
}

/// The alternatives of a pattern as trees, with a bar between them.
pub fn alternatives(alloc: Global, pattern: &Pattern, names: &Names) -> Result<String, AllocError> {
    let mut all = String::new(alloc);
    for alternative in pattern.alternatives.as_slice() {
        all.push_str(if all.is_empty() { "" } else { " | " })?;
        write_expr(alternative, names, &mut all)?;
    }
    Ok(all)
}

// A pattern's own number and line, and those of its constructs.
fn counted_pattern(alloc: Global, pattern: &Pattern, at: Numbering) -> Result<String, AllocError> {
    let mut found = Items::new(alloc);
    for alternative in pattern.alternatives.as_slice() {
        list(alternative, &mut found)?;
    }
    let (kind, number) = (pattern.construct.kind, pattern.construct.number);
    let front = format!(in alloc; "{kind:?} {number} on {}:", pattern.construct.line)?;
    counted(alloc, front.as_str(), &found, at)
}

/// `pattern` and `number-pattern`: the same of a pattern.
pub fn pattern(alloc: Global, asked: Shown, text: &str, names: &mut Names) -> Result<String, Stop> {
    let mut at = begin();
    let pattern = read_pattern(alloc, text, names, &mut at)?;
    Ok(match asked {
        Shown::Numbers => counted_pattern(alloc, &pattern, at)?,
        Shown::Tree | Shown::Copy => alternatives(alloc, &pattern, names)?,
    })
}

// Writes fixed text in angle brackets, and an expression in braces.
fn write_part(part: &AvtPart, names: &Names, all: &mut String) -> Result<(), AllocError> {
    match part {
        AvtPart::Fixed(text) => {
            all.push('<')?;
            all.push_str(text.as_str())?;
            all.push('>')
        }
        AvtPart::Inner(e) => {
            all.push('{')?;
            write_expr(e, names, all)?;
            all.push('}')
        }
    }
}

fn written_parts(alloc: Global, parts: &AvtParts, names: &Names) -> Result<String, AllocError> {
    let mut all = String::new(alloc);
    for part in parts.as_slice() {
        write_part(part, names, &mut all)?;
    }
    or_none(alloc, all)
}

fn counted_parts(alloc: Global, parts: &AvtParts, at: Numbering) -> Result<String, AllocError> {
    let mut found = Items::new(alloc);
    for part in parts.as_slice() {
        match part {
            AvtPart::Fixed(_) => {}
            AvtPart::Inner(e) => list(e, &mut found)?,
        }
    }
    counted(alloc, "", &found, at)
}

/// `template` and `number-template`: the same of a value template.
pub fn template(
    alloc: Global,
    asked: Shown,
    text: &str,
    names: &mut Names,
) -> Result<String, Stop> {
    let mut at = begin();
    let parts = read_template(alloc, text, names, &mut at)?;
    Ok(match asked {
        Shown::Numbers => counted_parts(alloc, &parts, at)?,
        Shown::Tree | Shown::Copy => written_parts(alloc, &parts, names)?,
    })
}

// Writes how a reading comes out, and where counting goes on.
fn write_outcome(
    alloc: Global,
    text: &str,
    names: &mut Names,
    all: &mut String,
) -> Result<(), AllocError> {
    let mut at = begin();
    let outcome = match read(alloc, text, names, &mut at) {
        Ok(_) => String::from_str(alloc, "read")?,
        Err(stop) => told(alloc, Err(stop))?,
    };
    let text = format!(in alloc; "{outcome}, {}; ", at.next)?;
    all.push_str(text.as_str())
}

// Writes names with their numbers, no more than so many.
fn write_names(names: &Names, most: u64, all: &mut String) -> Result<(), AllocError> {
    for number in 0..most {
        if !names.has(number) {
            return Ok(());
        }
        let one = name(*all.allocator(), number, names)?;
        let space = if number == 0 { "" } else { " " };
        let text = format!(in *all.allocator(); "{space}{number} {one}")?;
        all.push_str(text.as_str())?;
    }
    Ok(())
}

/// `names`: how texts come out that are read one behind another, with one list of names, and that list.
pub fn names_of(alloc: Global, text: &str, names: &mut Names) -> Result<String, Stop> {
    names.intern("urn:p", "b")?;
    let mut all = String::new(alloc);
    for one in text.split(';') {
        write_outcome(alloc, one, names, &mut all)?;
    }
    write_names(names, 100, &mut all)?;
    Ok(all)
}

fn letter(kind: TokenKind) -> &'static str {
    match kind {
        TokenKind::Name => "n",
        TokenKind::Wild => "w",
        TokenKind::Integer => "i",
        TokenKind::Decimal => "d",
        TokenKind::Str => "s",
        TokenKind::Mark => "m",
    }
}

// Each token by the letter of its kind, its first byte and the one behind its last.
fn written(alloc: Global, tokens: &[Token]) -> Result<String, AllocError> {
    let mut all = String::new(alloc);
    for token in tokens {
        all.push_str(if all.is_empty() { "" } else { " " })?;
        let one = format!(in alloc; "{}{}-{}", letter(token.kind), token.start, token.end)?;
        all.push_str(one.as_str())?;
    }
    or_none(alloc, all)
}

/// `tokens`: the tokens of a text.
pub fn tokens_of(alloc: Global, text: &str) -> Result<String, Stop> {
    if text.len() > 4096 {
        return Err(Stop::Unfit);
    }
    let found = tokens(alloc, text)??;
    Ok(written(alloc, found.as_slice())?)
}
