// A desk in memory, which fails where it is told to.
ghost use Rattle.std.specs.Prelude.{◌≡◌, ◌<◌, ◌-◌, ◌^◌, ◌||◌, [], length, is_some};
ghost use Rattle.std.specs.Prelude.{is_none, is_err, IfOk, IfSome};
ghost use Rattle.sx_desk.specs.Desk.{Opens, Reads, Writes};
ghost use Rattle.sx_desk.specs.Pieces.{MovesMost, least_of};
ghost use Rattle.sx_desk.specs.History.{IsUnused};
ghost use Rattle.sx_desk.specs.Files.{content_in};
ghost use Rattle.sx_desk.specs.Mem.{mem_seen, mem_served, no_calls, calls_of, one_more, is_listed};
ghost use Rattle.sx_desk.specs.Mem.{with_fault, SameSettings};

use crate::files::place_of;
use crate::history::CallHistory;
use crate::{Desk, Failed, Marks, MemFiles, Out};
use std::alloc::{AllocError, Global};

/// A desk in memory. It tells and shows until it finds no room for its own record of the calls, and answers on as
/// before after that.
#[derive(Drop)]
pub struct MemDesk {
    /// The files that can be opened.
    pub files: MemFiles,
    /// The most bytes that one read moves; 0 is read as 1.
    pub read_piece: u32,
    /// The most bytes that one write moves; 0 is read as 1.
    pub write_piece: u32,
    /// The numbers, from 1, of the calls of `open_file` that fail.
    pub open_fails: Vec<u64>,
    /// The numbers, from 1, of the calls of `read` that fail, those of all files counted together.
    pub read_fails: Vec<u64>,
    /// The numbers, from 1, of the calls of `write` that fail, those to both outputs counted together.
    pub write_fails: Vec<u64>,
    history: CallHistory,
    opens: u64,
    reads: u64,
    writes: u64,
    open_faults: u64,
    read_faults: u64,
    result_faults: u64,
    diagnostic_faults: u64,
}

impl MemDesk {
    /// A desk over these files that fails nowhere yet, with room for the records of 66 opened files. It errs only
    /// for want of memory.
    pub fn new(
        alloc: Global,
        files: MemFiles,
        read_piece: u32,
        write_piece: u32,
    ) -> Result<MemDesk, AllocError>
        ensures unused { IfOk result (λ d. IsUnused (mem_seen d)) }
        ensures content { IfOk result (λ d. (mem_seen d).content ≡ content_in files) }
        ensures calls { IfOk result (λ d. calls_of d ≡ no_calls) }
        ensures files { IfOk result (λ d. d.files ≡ files) }
        ensures read_piece { IfOk result (λ d. d.read_piece ≡ read_piece) }
        ensures write_piece { IfOk result (λ d. d.write_piece ≡ write_piece) }
        ensures open_fails { IfOk result (λ d. d.open_fails.items ≡ []) }
        ensures read_fails { IfOk result (λ d. d.read_fails.items ≡ []) }
        ensures write_fails { IfOk result (λ d. d.write_fails.items ≡ []) }
    {
        let history = CallHistory::new(alloc)?;
        Ok(MemDesk {
            files,
            read_piece,
            write_piece,
            open_fails: Vec::new(alloc),
            read_fails: Vec::new(alloc),
            write_fails: Vec::new(alloc),
            history,
            opens: 0,
            reads: 0,
            writes: 0,
            open_faults: 0,
            read_faults: 0,
            result_faults: 0,
            diagnostic_faults: 0,
        })
    }

    /// The bytes that were written to an output: `None` exactly where the desk no longer tells.
    pub fn written(&self, out: Out) -> Option<&[u8]>
        ensures known { is_some result ≡ (mem_seen self.now).told }
        ensures bytes { IfSome result (λ bytes. bytes.now ≡ (mem_seen self.now).written out) }
    {
        self.history.written(out)
    }

    /// The marks of an opened file: `None` exactly where the desk no longer tells.
    pub fn marks(&self, file: u32) -> Option<&Marks>
        requires { file < length (mem_seen self.now).opened }
        ensures known { is_some result ≡ (mem_seen self.now).told }
        ensures marks { IfSome result (λ marks. marks.now ≡ (mem_seen self.now).marks file) }
    {
        self.history.marks(file)
    }
}

impl Desk for MemDesk {
    ghost seen = { mem_seen };

    fn open_file(&mut self, name: &str) -> Result<u32, Failed>
        requires { length (mem_seen self.old).opened < 2 ^ 32 - 1 }
        ensures desk { Opens name.now (mem_seen self.old) (mem_seen self.new) result }
        ensures settings { SameSettings self.old self.new }
        ensures calls { calls_of self.new
            ≡ record (calls_of self.old) { opens = one_more (calls_of self.old).opens } }
        ensures fails { is_err result ≡ (is_listed self.old.open_fails.items (calls_of self.old).opens
            || is_none (content_in self.old.files name.now)) }
        ensures faults { (mem_seen self.new).open_faults
            ≡ with_fault (mem_seen self.old).open_faults result }
    {
        self.history.ask(name);
        self.opens = self.opens.saturating_add(1);
        if !self.open_fails.contains(&self.opens) {
            if let Some(place) = place_of(self.files.as_slice(), name) {
                return Ok(self.history.open(name, Some(place)));
            }
        }
        self.open_faults = self.open_faults.saturating_add(1);
        Err(Failed)
    }

    fn read(&mut self, file: u32, buf: &mut [u8]) -> Result<usize, Failed>
        requires room { 0 < length buf.old }
        requires given { file < length (mem_seen self.old).opened }
        ensures desk { Reads file (mem_seen self.old) (mem_seen self.new) buf.new result }
        ensures settings { SameSettings self.old self.new }
        ensures calls { calls_of self.new
            ≡ record (calls_of self.old) { reads = one_more (calls_of self.old).reads } }
        ensures fails { is_err result ≡ is_listed self.old.read_fails.items (calls_of self.old).reads }
        ensures moves { IfOk result (MovesMost (mem_served self.new file) ((mem_seen self.old).taken file)
            self.old.read_piece buf.new) }
        ensures faults { (mem_seen self.new).read_faults
            ≡ with_fault (mem_seen self.old).read_faults result }
    {
        self.history.mark(file);
        self.reads = self.reads.saturating_add(1);
        if self.read_fails.contains(&self.reads) {
            self.read_faults = self.read_faults.saturating_add(1);
            return Err(Failed);
        }
        let files = self.files.as_slice();
        Ok(self.history.take_next(files, file, self.read_piece, buf))
    }

    fn write(&mut self, out: Out, piece: &[u8]) -> Result<usize, Failed>
        requires { 0 < length piece.now }
        ensures desk { Writes out piece.now (mem_seen self.old) (mem_seen self.new) result }
        ensures settings { SameSettings self.old self.new }
        ensures calls { calls_of self.new
            ≡ record (calls_of self.old) { writes = one_more (calls_of self.old).writes } }
        ensures fails { is_err result ≡ is_listed self.old.write_fails.items (calls_of self.old).writes }
        ensures moves { IfOk result (λ n. n
            ≡ least_of self.old.write_piece (length piece.now) (length piece.now)) }
        ensures faults { (mem_seen self.new).write_faults out
            ≡ with_fault ((mem_seen self.old).write_faults out) result }
    {
        self.writes = self.writes.saturating_add(1);
        if self.write_fails.contains(&self.writes) {
            match out {
                Out::Result => self.result_faults = self.result_faults.saturating_add(1),
                Out::Diagnostic => self.diagnostic_faults = self
                    .diagnostic_faults
                    .saturating_add(1),
            }
            return Err(Failed);
        }
        Ok(self.history.write(out, piece, self.write_piece))
    }

    ghost use Rattle.std.specs.Prelude.{refl};

    ghost whole = { λ d. record { written_length = λ told shown o. refl } };
}
