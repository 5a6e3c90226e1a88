// A desk in memory that never fails.
ghost use Rattle.std.specs.Prelude.{◌≡◌, ◌<◌, ◌-◌, ◌^◌, length, is_some, IsOk, IfOk};
ghost use Rattle.std.specs.Prelude.{IfSome};
ghost use Rattle.sx_desk.specs.Desk.{Opens, Reads, Writes};
ghost use Rattle.sx_desk.specs.Pieces.{MovesMost, least_of};
ghost use Rattle.sx_desk.specs.History.{IsUnused};
ghost use Rattle.sx_desk.specs.Steady.{content_or_none, steady_seen, steady_served, SameFiles};

use crate::files::place_of;
use crate::history::CallHistory;
use crate::{Desk, Failed, Marks, MemFiles, Out};
use std::alloc::{AllocError, Global};

/// A desk in memory of which no call fails: a name that is not in its files has empty content. It tells and shows
/// until it finds no room for its own record of the calls, and answers on as before after that.
#[derive(Drop)]
pub struct SteadyDesk {
    /// The files that have content.
    pub files: MemFiles,
    /// The most bytes that one read moves; 0 is read as 1.
    pub read_piece: u32,
    /// The most bytes that one write moves; 0 is read as 1.
    pub write_piece: u32,
    history: CallHistory,
}

impl SteadyDesk {
    /// A desk over these files, with room for the records of 66 opened files. It errs only for want of memory.
    pub fn new(
        alloc: Global,
        files: MemFiles,
        read_piece: u32,
        write_piece: u32,
    ) -> Result<SteadyDesk, AllocError>
        ensures unused { IfOk result (λ d. IsUnused (steady_seen d)) }
        ensures content { IfOk result (λ d. (steady_seen d).content ≡ content_or_none files) }
        ensures files { IfOk result (λ d. d.files ≡ files) }
        ensures read_piece { IfOk result (λ d. d.read_piece ≡ read_piece) }
        ensures write_piece { IfOk result (λ d. d.write_piece ≡ write_piece) }
    {
        let history = CallHistory::new(alloc)?;
        Ok(SteadyDesk {
            files,
            read_piece,
            write_piece,
            history,
        })
    }

    /// The bytes that were written to an output: `None` exactly where the desk no longer tells.
    pub fn written(&self, out: Out) -> Option<&[u8]>
        ensures known { is_some result ≡ (steady_seen self.now).told }
        ensures bytes { IfSome result (λ bytes. bytes.now ≡ (steady_seen self.now).written out) }
    {
        self.history.written(out)
    }

    /// The marks of an opened file: `None` exactly where the desk no longer tells.
    pub fn marks(&self, file: u32) -> Option<&Marks>
        requires { file < length (steady_seen self.now).opened }
        ensures known { is_some result ≡ (steady_seen self.now).told }
        ensures marks { IfSome result (λ marks. marks.now ≡ (steady_seen self.now).marks file) }
    {
        self.history.marks(file)
    }
}

impl Desk for SteadyDesk {
    ghost seen = { steady_seen };

    fn open_file(&mut self, name: &str) -> Result<u32, Failed>
        requires { length (steady_seen self.old).opened < 2 ^ 32 - 1 }
        ensures desk { Opens name.now (steady_seen self.old) (steady_seen self.new) result }
        ensures succeeds { IsOk result }
        ensures settings { SameFiles self.old self.new }
    {
        self.history.ask(name);
        let place = place_of(self.files.as_slice(), name);
        Ok(self.history.open(name, place))
    }

    fn read(&mut self, file: u32, buf: &mut [u8]) -> Result<usize, Failed>
        requires room { 0 < length buf.old }
        requires given { file < length (steady_seen self.old).opened }
        ensures desk { Reads file (steady_seen self.old) (steady_seen self.new) buf.new result }
        ensures succeeds { IsOk result }
        ensures settings { SameFiles self.old self.new }
        ensures moves { IfOk result
            (MovesMost (steady_served self.new file) ((steady_seen self.old).taken file)
            self.old.read_piece buf.new) }
    {
        self.history.mark(file);
        let files = self.files.as_slice();
        Ok(self.history.take_next(files, file, self.read_piece, buf))
    }

    fn write(&mut self, out: Out, piece: &[u8]) -> Result<usize, Failed>
        requires { 0 < length piece.now }
        ensures desk { Writes out piece.now (steady_seen self.old) (steady_seen self.new) result }
        ensures succeeds { IsOk result }
        ensures settings { SameFiles self.old self.new }
        ensures moves { IfOk result (λ n. n
            ≡ least_of self.old.write_piece (length piece.now) (length piece.now)) }
    {
        Ok(self.history.write(out, piece, self.write_piece))
    }

    ghost use Rattle.std.specs.Prelude.{refl};

    ghost whole = { λ d. record { written_length = λ told shown o. refl } };
}
