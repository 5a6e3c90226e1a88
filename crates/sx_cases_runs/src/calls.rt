// Calls of the whole program, and of its parts that take names of files.
ghost use Rattle.std.specs.Prelude.{◌≡◌, ◌<◌, ◌≤◌, ◌^◌, [], length, OnOk};
ghost use Rattle.sx_desk.specs.Mem.{mem_seen};

use crate::desks::{mem_desk, steady_desk};
use crate::endings::ending;
use crate::settings::Settings;
use crate::texts::{first_text, text_of};
use std::alloc::{AllocError, Global};
use sx_desk::{Desk, Marks, MemDesk, Out};
use sx_kinds::Sheet;
use sx_limits::Limits;
use sx_names::Names;
use sx_reading::Status;
use sx_top::{Command, load, parse_words, top, transform};

// The texts of a call: its words, a stylesheet and a document.
#[derive(Clone, Copy)]
struct Texts<'a> {
    words: &'a str,
    sheet: &'a str,
    document: &'a str,
}

// The words of a text, with spaces between them.
fn words_of(alloc: Global, text: &str) -> Result<Vec<String>, AllocError> {
    let mut words = Vec::new(alloc);
    for word in text_of(text).split_whitespace() {
        words.push(String::from_str(alloc, word)?)?;
    }
    Ok(words)
}

/// What words ask for.
pub fn words(alloc: Global, text: &str) -> Result<String, AllocError> {
    let words = words_of(alloc, text)?;
    match parse_words(&words) {
        Some(Command::Copy(document)) => format!(in alloc; "copies {document}"),
        Some(Command::Run { sheet, document }) => format!(in alloc; "runs {sheet} on {document}"),
        None => format!(in alloc; "nothing"),
    }
}

#[tactic(auto, using(sx_top::proofs::Openings::opens_few))]
fn do_words<D: Desk>(alloc: Global, text: &str, desk: &mut D) -> Result<Status, AllocError>
    requires { (D.seen desk.old).opened ≡ [] }
    ensures { OnOk result (length (D.seen desk.new).opened ≤ 2) }
{
    let words = words_of(alloc, text)?;
    Ok(top(alloc, &words, desk))
}

// The number of bytes taken and that of bytes written, at each read.
fn push_marks(text: &mut String, marks: &Marks) -> Result<(), AllocError> {
    text.push_str(" ; marks")?;
    for (taken, written) in marks.as_slice() {
        write!(text, " {taken}:{written}")?;
    }
    Ok(())
}

// How many files were opened, and the marks of the last one of them, where the settings ask for them.
fn push_opened(text: &mut String, settings: &Settings, desk: &mut MemDesk) -> Result<(), AllocError>
    requires { length (mem_seen desk.old).opened ≤ 2 }
{
    let Ok(count) = desk.open_file("doc") else {
        return Ok(());
    };
    if settings.opened {
        write!(text, " ; opened {count}")?;
    }
    if settings.marks && count > 0 {
        if let Some(marks) = desk.marks(count - 1) {
            push_marks(text, marks)?;
        }
    }
    Ok(())
}

fn end_in_memory(
    alloc: Global,
    settings: &Settings,
    texts: &Texts<'_>,
) -> Result<String, AllocError> {
    let mut desk = mem_desk(alloc, settings, texts.sheet, texts.document)?;
    let status = do_words(alloc, texts.words, &mut desk)?;
    let (result, said) = (desk.written(Out::Result), desk.written(Out::Diagnostic));
    let mut text = ending(alloc, &status, texts.document, result, said)?;
    push_opened(&mut text, settings, &mut desk)?;
    Ok(text)
}

fn end_steadily(
    alloc: Global,
    settings: &Settings,
    texts: &Texts<'_>,
) -> Result<String, AllocError> {
    let mut desk = steady_desk(alloc, settings, texts.sheet, texts.document)?;
    let status = do_words(alloc, texts.words, &mut desk)?;
    let (result, said) = (desk.written(Out::Result), desk.written(Out::Diagnostic));
    ending(alloc, &status, texts.document, result, said)
}

fn end_once(alloc: Global, settings: &Settings, texts: &Texts<'_>) -> Result<String, AllocError> {
    if settings.steady {
        return end_steadily(alloc, settings, texts);
    }
    end_in_memory(alloc, settings, texts)
}

// Whether a call ends so, in pieces of these lengths.
fn ends_so(
    alloc: Global,
    settings: &Settings,
    texts: &Texts<'_>,
    pieces: (u32, u32),
    expected: &str,
) -> Result<bool, AllocError> {
    let (read, write) = pieces;
    let settings = Settings {
        read,
        write,
        ..*settings
    };
    Ok(end_once(alloc, &settings, texts)?.as_str() == expected)
}

const PIECES: [(u32, u32); 9] = [
    (1, 5),
    (1, 65_536),
    (2, 5),
    (2, 65_536),
    (3, 5),
    (3, 65_536),
    (7, 5),
    (7, 65_536),
    (65_536, 5),
];

// How a call ends, in pieces of any length where the settings say so.
fn end(alloc: Global, settings: &Settings, texts: &Texts<'_>) -> Result<String, AllocError> {
    let text = end_once(alloc, settings, texts)?;
    if settings.any {
        for pieces in PIECES {
            if !ends_so(alloc, settings, texts, pieces, text.as_str())? {
                return String::from_str(alloc, "differs");
            }
        }
    }
    Ok(text)
}

/// How the call of the words ends, with a stylesheet and a document.
pub fn call(alloc: Global, settings: &Settings, texts: &str) -> Result<String, AllocError> {
    let (words, texts) = first_text(texts);
    let (sheet, document) = first_text(texts);
    let texts = Texts {
        words,
        sheet,
        document,
    };
    end(alloc, settings, &texts)
}

/// How the copy of a document ends.
pub fn copy(alloc: Global, settings: &Settings, document: &str) -> Result<String, AllocError> {
    let texts = Texts {
        words: "copy doc",
        sheet: "none",
        document,
    };
    end(alloc, settings, &texts)
}

/// How the run of a stylesheet on a document ends.
pub fn run(alloc: Global, settings: &Settings, texts: &str) -> Result<String, AllocError> {
    let (sheet, document) = first_text(texts);
    let texts = Texts {
        words: "run sheet doc",
        sheet,
        document,
    };
    end(alloc, settings, &texts)
}

// Limits of which no depth and no number of bytes is beyond the program's.
fn within(limits: &Limits) -> Limits
    ensures depth { result.depth ≤ 200 }
    ensures bytes { result.bytes ≤ 2 ^ 40 }
{
    Limits {
        depth: limits.depth.min(200),
        bytes: limits.bytes.min(1 << 40),
        ..*limits
    }
}

fn transform_on(
    alloc: Global,
    sheet: &Sheet,
    names: &mut Names,
    limits: &Limits,
    desk: &mut MemDesk,
) -> Status
    requires few { length (mem_seen desk.old).opened ≤ 1 }
    requires depth { limits.now.depth ≤ 200 }
    requires bytes { limits.now.bytes ≤ 2 ^ 40 }
{
    match desk.open_file("doc") {
        Ok(file) => transform(alloc, sheet, names, limits, file, desk),
        Err(_) => Status::OpenFault,
    }
}

fn load_and_transform(alloc: Global, limits: &Limits, desk: &mut MemDesk) -> Status
    requires { (mem_seen desk.old).opened ≡ [] }
{
    let mut names = sx_names::new(alloc);
    match load(alloc, "sheet", &mut names, desk) {
        Ok(sheet) => transform_on(alloc, &sheet, &mut names, &within(limits), desk),
        Err(status) => status,
    }
}

/// How a run of a stylesheet on a document ends that keeps within the limits of the settings. It writes no diagnostic line:
/// that of its status is shown.
pub fn transformation(
    alloc: Global,
    settings: &Settings,
    texts: &str,
) -> Result<String, AllocError> {
    let (sheet, document) = first_text(texts);
    let mut desk = mem_desk(alloc, settings, sheet, document)?;
    let status = load_and_transform(alloc, &settings.limits, &mut desk);
    let said = status.diagnostic();
    let result = desk.written(Out::Result);
    ending(alloc, &status, document, result, Some(said.as_slice()))
}
