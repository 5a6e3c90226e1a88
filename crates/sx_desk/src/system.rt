// What the real desk asks of a runtime, one call at a time.
ghost use Rattle.std.specs.Prelude.{ℕ, List, Result, ⊤};
ghost use Rattle.std.specs.Io.{ReadsAtMost, WritesAtMost};
ghost use Rattle.std.specs.Io.KnownBytes.{ReadConsumes};
ghost use Rattle.std.specs.declared.io.Error.{Error};

use std::io::Read;
use std::rt::Files;
use std::{fs, io};

/// The files and the two standard outputs of a runtime. Contracts say by its relations which answers a call may have
/// given, so that of a desk over any such system it can be said that each of its answers is that of one call.
pub trait System {
    /// An opened file.
    type File: Drop;

    // Opening a name may answer this.
    ghost opens: { Self → List ℕ → Result Self.File Error → Type 0 };

    // Reading takes a file from one state to another, with this answer and these bytes in the buffer.
    ghost reads: { Self.File → Self.File → Result ℕ Error → List ℕ → Type 0 };

    // Writing a piece to the standard output may answer this.
    ghost writes: { Self → List ℕ → Result ℕ Error → Type 0 };

    // Writing a text to the standard error may answer this.
    ghost prints: { Self → List ℕ → Result (Unit {0}) Error → Type 0 };

    /// Opens a file for reading.
    fn open(&self, name: &str) -> io::Result<Self::File>
        ensures { opens self.now name.now result };

    /// Reads a file once, and gives the number of bytes that are now in the front of the buffer: 0 at the end.
    fn read(file: &mut Self::File, buf: &mut [u8]) -> io::Result<usize>
        ensures at_most { ReadsAtMost result buf.new }
        ensures answer { reads file.old file.new result buf.new };

    /// Writes the front of a piece to the standard output once, and gives the number of its bytes.
    fn write(&self, piece: &[u8]) -> io::Result<usize>
        ensures at_most { WritesAtMost result piece.now }
        ensures answer { writes self.now piece.now result };

    /// Writes a whole text to the standard error.
    fn print(&self, text: &str) -> io::Result<()>
        ensures { prints self.now text.now result };
}

impl<R: Files + Print + Eprint> System for R {
    type File = R::File;

    ghost opens = { λ _ _ _. ⊤ };

    ghost reads = { λ old new answer buf. ReadConsumes (R.File.Read.remaining old)
        (R.File.Read.remaining new)
        answer buf };

    ghost writes = { λ _ _ _. ⊤ };

    ghost prints = { λ _ _ _. ⊤ };

    fn open(&self, name: &str) -> io::Result<R::File> {
        fs::open(self, name)
    }

    fn read(file: &mut R::File, buf: &mut [u8]) -> io::Result<usize> {
        file.read(buf)
    }

    fn write(&self, piece: &[u8]) -> io::Result<usize> {
        self.write_some(piece)
    }

    fn print(&self, text: &str) -> io::Result<()> {
        self.eprint(text)
    }
}
