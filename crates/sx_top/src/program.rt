// The whole program.
ghost use Rattle.std.specs.Prelude.{◌≡◌, ◌<◌, ◌≤◌, ◌^◌, [], ◌∷◌, IsTrue, IfOk};
ghost use Rattle.std.specs.Prelude.{length, map, string_bytes};
ghost use Rattle.sx_desk.specs.declared.desk.Out.TheVariants as out;
ghost use Rattle.sx_limits.specs.Limits.{stated};
ghost use Rattle.sx_kinds.specs.declared.sheets.OnNoMatch.TheVariants as unmatched;
ghost use Rattle.sx_machine.specs.Meaning.{IsReady, thin_mode};
ghost use Rattle.sx_reading.specs.Answers.{diagnostic_of};
ghost use Rattle.sx_reading.specs.Frame.{Frame};
ghost use Rattle.sx_reading.specs.Transforming.{Transforms};
ghost use Rattle.sx_reading.specs.Headline.{Headline};
ghost use Rattle.sx_reading.specs.Program.{IsSilent, Says};
ghost use Rattle.sx_top.specs.Commands.{Does, Runs, RunsSheet};
ghost use Rattle.sx_top.specs.Copy.{copy_sheet, copy_written, copy_outcome};
ghost use Rattle.sx_top.specs.Words.{requested, requested_of};
ghost use Rattle.sx_top.specs.Run.{run_written, run_outcome};

use crate::{Command, load, parse_words, transform};
use sqlite_items::Items;
use std::alloc::{AllocError, Global};
use sx_desk::{Desk, Out};
use sx_events::Limits;
use sx_kinds::{Mode, Modes, OnNoMatch, Sheet};
use sx_names::Names;
use sx_reading::{Status, write_all};

// The one mode of the stylesheet of a copy.
fn copying_modes(alloc: Global) -> Result<Modes, AllocError>
    ensures { IfOk result (λ modes. modes ≡ thin_mode unmatched.ShallowCopy ∷ []) }
{
    let mut modes = Items::new(alloc);
    modes.push(Mode {
        name: None,
        declared: true,
        streamable: true,
        no_match: OnNoMatch::ShallowCopy,
    })?;
    Ok(modes)
}

// The stylesheet of a copy.
fn copying_sheet(alloc: Global) -> Result<Sheet, AllocError>
    ensures { IfOk result (λ sheet. sheet ≡ copy_sheet) }
{
    Ok(Sheet {
        modes: copying_modes(alloc)?,
        templates: Items::new(alloc),
        constructs: 0,
    })
}

// Copies an opened file of which nothing was taken.
fn copy_opened<D: Desk>(alloc: Global, file: u32, desk: &mut D) -> Status
    requires given { file < length (D.seen desk.old).opened }
    requires untouched { IsTrue (D.seen desk.old).told → (D.seen desk.old).taken file ≡ 0 }
    ensures runs { Transforms copy_written copy_outcome file (D.seen desk.old) (D.seen desk.new) result }
    ensures frame { Frame file out.Result (D.seen desk.old) (D.seen desk.new) }
{
    match copying_sheet(alloc) {
        Ok(sheet) => {
            let mut names = sx_names::new(alloc);
            transform(alloc, &sheet, &mut names, &Limits::stated(), file, desk)
        }
        Err(_) => Status::OutOfMemory,
    }
}

// Copies the document of a name.
fn copy<D: Desk>(alloc: Global, name: &str, desk: &mut D) -> Status
    requires { length (D.seen desk.old).opened < 2 ^ 31 }
    ensures headline { Headline copy_written copy_outcome name.now
        (D.seen desk.old) (D.seen desk.new) result }
    ensures quiet { IsSilent (D.seen desk.old) (D.seen desk.new) }
{
    match desk.open_file(name) {
        Ok(file) => copy_opened(alloc, file, desk),
        Err(_) => Status::OpenFault,
    }
}

// Runs a stylesheet on the document of a name. Where the names are the stylesheet's, it can be run.
fn run_on<D: Desk>(
    alloc: Global,
    sheet: &Sheet,
    names: &mut Names,
    name: &str,
    desk: &mut D,
) -> Status
    requires { length (D.seen desk.old).opened ≤ 2 ^ 31 }
    ensures headline { IsReady sheet.now names.old
        → Headline (run_written sheet.now names.old stated) (run_outcome sheet.now names.old stated)
        name.now
        (D.seen desk.old) (D.seen desk.new) result }
    ensures quiet { IsSilent (D.seen desk.old) (D.seen desk.new) }
{
    match desk.open_file(name) {
        Ok(file) => transform(alloc, sheet, names, &Limits::stated(), file, desk),
        Err(_) => Status::OpenFault,
    }
}

// Runs the stylesheet of a name on the document of a name.
fn run<D: Desk>(alloc: Global, sheet: &str, document: &str, desk: &mut D) -> Status
    requires { length (D.seen desk.old).opened < 2 ^ 31 }
    ensures runs { RunsSheet sheet.now document.now (D.seen desk.old) (D.seen desk.new) result }
    ensures quiet { IsSilent (D.seen desk.old) (D.seen desk.new) }
{
    let mut names = sx_names::new(alloc);
    match load(alloc, sheet, &mut names, desk) {
        Ok(loaded) => run_on(alloc, &loaded, &mut names, document, desk),
        Err(status) => status,
    }
}

// Does what a command asks for.
fn carry_out<D: Desk>(alloc: Global, command: Command<'_>, desk: &mut D) -> Status
    requires { length (D.seen desk.old).opened < 2 ^ 31 }
    ensures does { Does (requested_of command.entry) (D.seen desk.old) (D.seen desk.new) result }
    ensures quiet { IsSilent (D.seen desk.old) (D.seen desk.new) }
{
    match command {
        Command::Copy(document) => copy(alloc, document, desk),
        Command::Run { sheet, document } => run(alloc, sheet, document, desk),
    }
}

/// Does all that the program does: opens and reads through the desk what the words ask for, writes the result, and
/// writes one diagnostic line where the status is not `Ok`.
pub fn top<D: Desk>(alloc: Global, words: &[String], desk: &mut D) -> Status
    requires { length (D.seen desk.old).opened < 2 ^ 31 }
    ensures runs { Runs (requested (map string_bytes words.now)) (D.seen desk.old) (D.seen desk.new) result }
    ensures says { Says (diagnostic_of result) (D.seen desk.old) (D.seen desk.new) }
{
    let status = match parse_words(words) {
        Some(command) => carry_out(alloc, command, desk),
        None => Status::Usage,
    };
    let _ = write_all(desk, Out::Diagnostic, status.diagnostic().as_slice());
    status
}
