// Copies of a stylesheet and of an expression.
use crate::notation::{label_of, label_shown};
use sqlite_items::Items;
use std::alloc::{AllocError, Global};
use sx_kinds::{
    Body, Construct, ConstructKind, Deep, Expr, ExprForm, Exprs, Instr, InstrForm, Mode, Modes,
    NamePattern, OnNoMatch, Sheet, Template, Templates,
};
use sx_names::Names;
use sx_tree::Chars;

fn construct(number: u64, line: u64, kind: ConstructKind) -> Construct {
    Construct { number, line, kind }
}

// An instruction that a case writes as `-TEXT`, or else as the name of a literal result element.
fn instr_of(
    alloc: Global,
    names: &mut Names,
    word: &str,
    number: u64,
    body: Body,
) -> Result<Instr, AllocError> {
    let line = number.saturating_add(7);
    match word.strip_prefix('-') {
        Some(text) => Ok(Instr {
            construct: construct(number, line, ConstructKind::Text),
            form: InstrForm::Text(Chars::copy(alloc, text)?),
            body,
        }),
        None => Ok(Instr {
            construct: construct(number, line, ConstructKind::Literal),
            form: InstrForm::Literal {
                label: label_of(alloc, names, word)?,
            },
            body,
        }),
    }
}

// The instructions that a case writes, each with those behind it in its body. They are numbered from 3 on.
fn body_of(alloc: Global, names: &mut Names, words: &str) -> Result<Body, AllocError> {
    let mut number = words.split(' ').count() as u64;
    let mut body = Items::new(alloc);
    for word in words.rsplit(' ') {
        let instr = instr_of(alloc, names, word, number.saturating_add(2), body)?;
        body = Items::new(alloc);
        body.push(instr)?;
        number = number.saturating_sub(1);
    }
    Ok(body)
}

fn templates_with(alloc: Global, body: Body) -> Result<Templates, AllocError> {
    let mut templates = Items::new(alloc);
    templates.push(Template {
        construct: construct(1, 9, ConstructKind::Template),
        pattern: Some(NamePattern {
            construct: construct(2, 9, ConstructKind::Pattern),
            name: 0,
        }),
        body,
    })?;
    Ok(templates)
}

fn streamable_mode(alloc: Global) -> Result<Modes, AllocError> {
    let mut modes = Items::new(alloc);
    modes.push(Mode {
        name: None,
        declared: true,
        streamable: true,
        no_match: OnNoMatch::TextOnlyCopy,
    })?;
    Ok(modes)
}

// Appends the number, the kind and the line of a construct.
fn show_construct(out: &mut String, construct: &Construct) -> Result<(), AllocError> {
    let Construct { number, line, kind } = construct;
    let text = format!(in *out.allocator(); "{number} {kind:?} {line}")?;
    out.push_str(text.as_str())
}

fn show_form(out: &mut String, names: &Names, form: &InstrForm) -> Result<(), AllocError> {
    out.push(' ')?;
    match form {
        InstrForm::Literal { label } => label_shown(out, names, label),
        InstrForm::Text(text) => {
            out.push('-')?;
            out.push_str(text.as_str())
        }
        InstrForm::ApplyTemplates => out.push('*'),
    }
}

// Appends instructions: of each its number, its kind, its line, its form, and in parentheses its body.
fn show_body(out: &mut String, names: &Names, body: &[Instr]) -> Result<(), AllocError> {
    for instr in body {
        show_construct(out, &instr.construct)?;
        show_form(out, names, &instr.form)?;
        out.push_str(" (")?;
        show_body(out, names, instr.body.as_slice())?;
        out.push(')')?;
    }
    Ok(())
}

fn show_modes(out: &mut String, modes: &Modes) -> Result<(), AllocError> {
    for mode in modes.as_slice() {
        let text = format!(in *out.allocator();
            " mode named={} declared={} streamable={} {:?},",
            mode.name.is_some(),
            mode.declared,
            mode.streamable,
            mode.no_match
        )?;
        out.push_str(text.as_str())?;
    }
    Ok(())
}

fn show_pattern(out: &mut String, pattern: &NamePattern) -> Result<(), AllocError> {
    out.push_str(", ")?;
    show_construct(out, &pattern.construct)?;
    let name = format!(in *out.allocator(); " of {}", pattern.name)?;
    out.push_str(name.as_str())
}

fn show_templates(
    out: &mut String,
    names: &Names,
    templates: &Templates,
) -> Result<(), AllocError> {
    for template in templates.as_slice() {
        out.push(' ')?;
        show_construct(out, &template.construct)?;
        if let Some(pattern) = &template.pattern {
            show_pattern(out, pattern)?;
        }
        out.push_str(" (")?;
        show_body(out, names, template.body.as_slice())?;
        out.push(')')?;
    }
    Ok(())
}

// A stylesheet of one template with these instructions, each round those behind it.
fn sheet_of(alloc: Global, names: &mut Names, words: &str) -> Result<Sheet, AllocError> {
    let body = body_of(alloc, names, words)?;
    let templates = templates_with(alloc, body)?;
    let constructs = 2_u64.saturating_add(words.split(' ').count() as u64);
    match streamable_mode(alloc) {
        Ok(modes) => Ok(Sheet {
            modes,
            templates,
            constructs,
        }),
        Err(error) => Err(error),
    }
}

fn sheet_shown(alloc: Global, names: &Names, sheet: &Sheet) -> Result<String, AllocError> {
    let mut out = format!(in alloc; "{} constructs,", sheet.constructs)?;
    show_modes(&mut out, &sheet.modes)?;
    show_templates(&mut out, names, &sheet.templates)?;
    Ok(out)
}

// A copy of a stylesheet, as answers show it.
fn copy_shown(alloc: Global, names: &Names, sheet: &Sheet) -> Result<String, AllocError> {
    let copy = Sheet::copy(alloc, sheet)?;
    sheet_shown(alloc, names, &copy)
}

// A copy of such a stylesheet.
fn sheet_copied(alloc: Global, names: &mut Names, words: &str) -> Result<String, AllocError> {
    let sheet = sheet_of(alloc, names, words)?;
    copy_shown(alloc, names, &sheet)
}

/// A copy of a stylesheet of one template with these instructions, each round those behind it.
pub fn sheet(alloc: Global, text: &str) -> Result<String, AllocError> {
    let mut names = sx_names::new(alloc);
    sheet_copied(alloc, &mut names, text)
}

// So many signs before the context item, the innermost with the number 0.
fn signed(alloc: Global, signs: u64) -> Result<Expr, AllocError> {
    let mut e = Expr {
        construct: construct(0, 1, ConstructKind::Dot),
        deep: Deep::No,
        form: ExprForm::Dot,
        parts: Exprs::new(alloc),
    };
    for number in 0..signs {
        let mut parts = Exprs::new(alloc);
        parts.push(e)?;
        e = Expr {
            construct: construct(number, 1, ConstructKind::Unary),
            deep: Deep::No,
            form: ExprForm::Unary { minus: true },
            parts,
        };
    }
    Ok(e)
}

/// A copy of a chain of so many signs: how many it has, and whether each has the number next below that around it.
pub fn chain(alloc: Global, text: &str) -> Result<String, AllocError> {
    let written = text.parse::<u64>().unwrap_or(0);
    let copy = Expr::copy(alloc, &signed(alloc, written)?)?;
    let mut signs = 0_u64;
    let mut in_order = true;
    let mut e = &copy;
    while let Some(first) = e.parts.as_slice().first() {
        signs = signs.wrapping_add(1);
        in_order &= e.construct.number.wrapping_add(signs) == written;
        e = first;
    }
    format!(in alloc; "{signs} signs, in order: {in_order}")
}
