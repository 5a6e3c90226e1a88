// Sessions: what is given at each event.
use crate::desks::mem_desk;
use crate::events::event;
use crate::printing::{code_text, folded, written};
use crate::settings::Settings;
use crate::texts::{first_text, lines};
use std::alloc::{AllocError, Global};
use std::str;
use sx_kinds::Sheet;
use sx_lines::append;
use sx_machine::{Session, State, Step};
use sx_names::Names;
use sx_top::load;
use sx_tree::Event;

// A session of a stylesheet.
fn started(
    alloc: Global,
    sheet: Sheet,
    invocations: u64,
    names: &Names,
) -> Result<Session, AllocError> {
    Session::start(alloc, &sheet, invocations, names)
}

// The answer to an event.
fn fed(session: &mut Session, event: Event, names: &mut Names) -> Result<Step, AllocError> {
    match event {
        Event::Close => session.finish(names),
        event => session.feed(event, names),
    }
}

// What is given, each built event printed by itself.
fn given(alloc: Global, session: &mut Session) -> Result<Vec<u8>, AllocError> {
    let mut bytes = Vec::new(alloc);
    for event in session.output() {
        append(&mut bytes, false, event)?;
    }
    session.clear_output();
    Ok(bytes)
}

// What is given at an event, and the error where it is answered one.
fn step_text(alloc: Global, given: &str, step: Step) -> Result<String, AllocError> {
    match step {
        Step::Going => format!(in alloc; "[{given}]\n"),
        Step::Stopped(code) => {
            let code = code_text(alloc, code)?;
            format!(in alloc; "[{given}] {code}\n")
        }
    }
}

fn given_text(alloc: Global, session: &mut Session) -> Result<String, AllocError> {
    let bytes = given(alloc, session)?;
    if bytes.is_empty() {
        return Ok(String::new(alloc));
    }
    written(alloc, Some(bytes.as_slice()))
}

fn take(
    alloc: Global,
    session: &mut Session,
    names: &mut Names,
    line: &str,
    text: &mut String,
) -> Result<(), AllocError> {
    let event = event(alloc, names, line)?;
    let step = fed(session, event, names)?;
    let given = given_text(alloc, session)?;
    let step = step_text(alloc, given.as_str(), step)?;
    text.push_str(step.as_str())
}

// The steps of a session, each with a newline.
fn steps(
    alloc: Global,
    session: &mut Session,
    names: &mut Names,
    events: &str,
) -> Result<String, AllocError> {
    let mut text = String::new(alloc);
    for line in events.split_terminator('\n') {
        take(alloc, session, names, line, &mut text)?;
    }
    Ok(text)
}

fn state_text(alloc: Global, session: &Session) -> Result<String, AllocError> {
    match session.state() {
        State::Going => String::from_str(alloc, "going"),
        State::Stopped(code) => {
            let code = code_text(alloc, code)?;
            format!(in alloc; "stopped {code}")
        }
        State::Closed => String::from_str(alloc, "closed"),
        State::Spent => String::from_str(alloc, "spent"),
    }
}

fn run(
    alloc: Global,
    sheet: Sheet,
    invocations: u64,
    names: &mut Names,
    events: &str,
) -> Result<String, AllocError> {
    let mut session = started(alloc, sheet, invocations, names)?;
    let steps = steps(alloc, &mut session, names, events)?;
    let state = state_text(alloc, &session)?;
    if steps.is_empty() {
        return Ok(state);
    }
    let steps = folded(alloc, steps.as_str(), " ")?;
    format!(in alloc; "{steps}{state}")
}

/// What a session of a stylesheet gives at each event, in brackets, and whether it then goes on.
pub fn session(alloc: Global, settings: &Settings, texts: &str) -> Result<String, AllocError> {
    let (sheet, events) = first_text(texts);
    let mut desk = mem_desk(alloc, settings, sheet, "none")?;
    let mut names = sx_names::new(alloc);
    let Ok(sheet) = load(alloc, "sheet", &mut names, &mut desk) else {
        return String::from_str(alloc, "no stylesheet");
    };
    let events = lines(alloc, events)?;
    match str::from_utf8(events.as_slice()) {
        Ok(events) => run(
            alloc,
            sheet,
            settings.limits.invocations,
            &mut names,
            events,
        ),
        Err(_) => String::from_str(alloc, "no text"),
    }
}
