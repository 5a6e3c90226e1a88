// The real outside. It tells nothing, and counts each failure.
ghost use Rattle.std.specs.Prelude.{◌≡◌, ◌<◌, ◌≤◌, ◌-◌, ◌^◌, [], length, vec_len};
ghost use Rattle.std.specs.Prelude.{vec_capacity, IfOk};
ghost use Rattle.sx_desk.specs.Desk.{untold, Opens, Reads, Writes};
ghost use Rattle.sx_desk.specs.Real.{OpensOne, ReadsOne, WritesOne, utf8_front};

use crate::system::System;
use crate::{Desk, Failed, Out};
use std::alloc::{AllocError, Global};
use std::rt::Files;

// The most files that it holds.
const MAX_FILES: usize = 66;

/// The files, the standard output and the standard error of a runtime. It neither tells nor shows; a count of faults
/// rises at each failure, up to the greatest `u64`. Each call asks the system once, and answers what the system did. It
/// holds at most 66 files, and a further open fails. A write that takes nothing fails. A diagnostic is text: a write to
/// it takes the front of the piece that is UTF-8, and fails where there is none.
#[derive(Drop)]
pub struct RealDesk<'a, R: System> {
    rt: &'a R,
    files: Vec<R::File>,
    open_faults: u64,
    read_faults: u64,
    result_faults: u64,
    diagnostic_faults: u64,
    ghost room: { 66 ≤ vec_capacity files },
}

impl<'a, R: Files + Print + Eprint> RealDesk<'a, R> {
    /// A desk that has opened nothing, with room for its 66 files. It errs only for want of memory.
    pub fn new(alloc: Global, rt: &'a R) -> Result<RealDesk<'a, R>, AllocError>
        ensures seen { IfOk result (λ d. ⟦<RealDesk<'a, R> as Desk>⟧.seen d ≡ untold 0 0 0 0 0) }
        ensures files { IfOk result (λ d. d.files.items ≡ []) }
    {
        Ok(RealDesk {
            rt,
            files: Vec::with_capacity(alloc, MAX_FILES)?,
            open_faults: 0,
            read_faults: 0,
            result_faults: 0,
            diagnostic_faults: 0,
        })
    }
}

impl<'a, R: System> Desk for RealDesk<'a, R> {
    ghost seen = { λ d. untold (vec_len d.files) d.open_faults d.read_faults d.result_faults
        d.diagnostic_faults };

    fn open_file(&mut self, name: &str) -> Result<u32, Failed>
        requires { length (⟦<RealDesk<'a, R> as Desk>⟧.seen self.old).opened < 2 ^ 32 - 1 }
        ensures desk { Opens name.now (⟦<RealDesk<'a, R> as Desk>⟧.seen self.old)
            (⟦<RealDesk<'a, R> as Desk>⟧.seen self.new) result }
        ensures answer { OpensOne (R.opens self.old.rt.now name.now) self.old.files.items self.new.files.items
            result }
    {
        let number = self.files.len();
        if number < MAX_FILES {
            if let Ok(file) = self.rt.open(name) {
                if self.files.push(file).is_ok() {
                    return Ok(number as u32);
                }
            }
        }
        self.open_faults = self.open_faults.saturating_add(1);
        Err(Failed)
    }

    fn read(&mut self, file: u32, buf: &mut [u8]) -> Result<usize, Failed>
        requires room { 0 < length buf.old }
        requires given { file < length (⟦<RealDesk<'a, R> as Desk>⟧.seen self.old).opened }
        ensures desk { Reads file (⟦<RealDesk<'a, R> as Desk>⟧.seen self.old)
            (⟦<RealDesk<'a, R> as Desk>⟧.seen self.new) buf.new result }
        ensures answer { ReadsOne R.reads file self.old.files.items self.new.files.items buf.new result }
    {
        match R::read(&mut self.files[file as usize], buf) {
            Ok(count) => Ok(count),
            Err(_) => {
                self.read_faults = self.read_faults.saturating_add(1);
                Err(Failed)
            }
        }
    }

    fn write(&mut self, out: Out, piece: &[u8]) -> Result<usize, Failed>
        requires { 0 < length piece.now }
        ensures desk { Writes out piece.now (⟦<RealDesk<'a, R> as Desk>⟧.seen self.old)
            (⟦<RealDesk<'a, R> as Desk>⟧.seen self.new) result }
        ensures files { self.new.files.items ≡ self.old.files.items }
        ensures answer { WritesOne (R.writes self.old.rt.now) (R.prints self.old.rt.now) out piece.now
            result }
    {
        match out {
            Out::Result => {
                match self.rt.write(piece) {
                    Ok(count) if count > 0 => Ok(count),
                    _ => {
                        self.result_faults = self.result_faults.saturating_add(1);
                        Err(Failed)
                    }
                }
            }
            Out::Diagnostic => {
                let text = text_front(piece);
                if !text.is_empty() && self.rt.print(text).is_ok() {
                    return Ok(text.len());
                }
                self.diagnostic_faults = self.diagnostic_faults.saturating_add(1);
                Err(Failed)
            }
        }
    }

    ghost use Rattle.std.proofs.lemmas.Bool.{false≢true};

    ghost whole = { λ d. record { written_length = λ told shown o. absurd (false≢true told) } };
}

// The bytes up to the first that is not text.
fn text_front(bytes: &[u8]) -> &str
    ensures { result.now ≡ utf8_front bytes.now }
{
    match str::from_utf8(bytes) {
        Ok(text) => text,
        Err(fault) => str::from_utf8(&bytes[..fault.valid_up_to()]).unwrap_or(""),
    }
}
