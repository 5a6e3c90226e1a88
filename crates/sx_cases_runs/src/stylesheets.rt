// Stylesheets: what lines and events are read to.
use crate::desks::mem_desk;
use crate::events::event;
use crate::printing::{code_text, written};
use crate::settings::Settings;
use crate::texts::text_of;
use sqlite_items::Items;
use std::alloc::{AllocError, Global};
use sx_kinds::{Construct, Instr, InstrForm, OnNoMatch, Sheet, Template};
use sx_names::Names;
use sx_reading::Status;
use sx_sheet::{LinedEvent, LinedEvents, StaticFault, read};
use sx_top::load;
use sx_tree::Label;

// A construct: its number, its kind and its line.
fn push_construct(text: &mut String, construct: &Construct) -> Result<(), AllocError> {
    let number = construct.number;
    let kind = construct.kind;
    let line = construct.line;
    write!(text, "{number} {kind:?} line {line}")
}

// The name of a number, with its namespace where it has one.
fn push_name(text: &mut String, names: &Names, number: u64) -> Result<(), AllocError> {
    if !names.has(number) {
        return text.push_str(" no name");
    }
    let local = names.local(number);
    let uri = names.uri(number);
    if uri.is_empty() {
        return write!(text, " {local}");
    }
    write!(text, " {local} in {uri}")
}

fn push_label(text: &mut String, names: &Names, label: &Label) -> Result<(), AllocError> {
    let prefix = label.prefix.as_str();
    if !prefix.is_empty() {
        write!(text, " {prefix}:")?;
    }
    push_name(text, names, label.number)
}

// What an instruction has besides its construct and its body.
fn push_form(text: &mut String, names: &Names, form: &InstrForm) -> Result<(), AllocError> {
    match form {
        InstrForm::Literal { label } => push_label(text, names, label),
        InstrForm::Text(said) => {
            let said = said.as_str();
            write!(text, " [{said}]")
        }
        InstrForm::ApplyTemplates => Ok(()),
    }
}

// What stands before the instruction at this place of a body.
fn push_separator(text: &mut String, place: usize) -> Result<(), AllocError> {
    if place == 0 {
        return text.push_str(" (");
    }
    text.push_str(", ")
}

#[cycle(printing)]
fn push_instr(text: &mut String, names: &Names, instr: &Instr) -> Result<(), AllocError> {
    push_construct(text, &instr.construct)?;
    push_form(text, names, &instr.form)?;
    push_body(text, names, instr.body.as_slice())
}

// Instructions, in parentheses where there are any.
#[cycle(printing)]
fn push_body(text: &mut String, names: &Names, body: &[Instr]) -> Result<(), AllocError> {
    for (place, instr) in body.iter().enumerate() {
        push_separator(text, place)?;
        push_instr(text, names, instr)?;
    }
    if body.is_empty() {
        return Ok(());
    }
    text.push_str(")")
}

fn push_template(text: &mut String, names: &Names, template: &Template) -> Result<(), AllocError> {
    text.push_str(" ; ")?;
    push_construct(text, &template.construct)?;
    if let Some(pattern) = &template.pattern {
        text.push_str(", ")?;
        push_construct(text, &pattern.construct)?;
        push_name(text, names, pattern.name)?;
    }
    push_body(text, names, template.body.as_slice())
}

// What is done with a node that no template matches.
fn mode_word(sheet: &Sheet) -> &'static str {
    match sheet.modes.as_slice() {
        [mode] => match mode.no_match {
            OnNoMatch::TextOnlyCopy => "text-only-copy",
            OnNoMatch::ShallowCopy => "shallow-copy",
            _ => "another mode",
        },
        _ => "no mode",
    }
}

fn shown(alloc: Global, names: &Names, sheet: &Sheet) -> Result<String, AllocError> {
    let constructs = sheet.constructs;
    let mode = mode_word(sheet);
    let mut text = format!(in alloc; "{constructs} constructs, {mode}")?;
    for template in sheet.templates.as_slice() {
        push_template(&mut text, names, template)?;
    }
    Ok(text)
}

// How a load ended that gave no stylesheet.
fn fault_shown(alloc: Global, status: &Status) -> Result<String, AllocError> {
    let number = status.number();
    let diagnostic = status.diagnostic();
    let line = written(alloc, Some(diagnostic.as_slice()))?;
    format!(in alloc; "{number} ; {line}")
}

/// The stylesheet that lines say, or the status of its load.
pub fn loaded(alloc: Global, settings: &Settings, lines: &str) -> Result<String, AllocError> {
    let mut desk = mem_desk(alloc, settings, lines, "none")?;
    let mut names = sx_names::new(alloc);
    match load(alloc, "sheet", &mut names, &mut desk) {
        Ok(sheet) => shown(alloc, &names, &sheet),
        Err(status) => fault_shown(alloc, &status),
    }
}

// Events on lines from 1 on, one on each.
fn lined(alloc: Global, names: &mut Names, texts: &str) -> Result<LinedEvents, AllocError> {
    let mut events = Items::new(alloc);
    let mut line: u64 = 0;
    for text in text_of(texts).split_terminator('|') {
        line = line.saturating_add(1);
        events.push(LinedEvent {
            event: event(alloc, names, text)?,
            line,
        })?;
    }
    Ok(events)
}

fn sheet_of(
    alloc: Global,
    names: &mut Names,
    texts: &str,
) -> Result<Result<Sheet, StaticFault>, AllocError> {
    let events = lined(alloc, names, texts)?;
    read(alloc, &events, names)
}

/// The stylesheet that events are, or its fault.
pub fn of_events(alloc: Global, texts: &str) -> Result<String, AllocError> {
    let mut names = sx_names::new(alloc);
    match sheet_of(alloc, &mut names, texts)? {
        Ok(sheet) => shown(alloc, &names, &sheet),
        Err(fault) => {
            let code = code_text(alloc, fault.code)?;
            let line = fault.line;
            format!(in alloc; "{code} line {line}")
        }
    }
}
