// A runtime with one file, whose calls move few bytes and fail where they are told to.
ghost use Rattle.std.specs.Prelude.{IsErr};

use std::alloc::{AllocError, Allocator, Global};
use std::cell::{Cell, RefCell};
use std::fmt::Display;
use std::fs::{Metadata, OpenOptions};
use std::io;
use std::io::{ErrorKind, Read, Seek, SeekFrom, Write};
use std::rt::Files;

/// How it behaves: the most bytes that one call moves, and the numbers from 1 of the calls that fail, of which 0 is none.
#[derive(Clone, Copy)]
pub struct Conduct {
    pub read_piece: usize,
    pub write_piece: usize,
    pub failing_read: u64,
    pub failing_write: u64,
    pub prints: bool,
}

/// All calls succeed, and move what there is.
pub const WELL: Conduct = Conduct {
    read_piece: usize::MAX,
    write_piece: usize::MAX,
    failing_read: 0,
    failing_write: 0,
    prints: true,
};

#[derive(Drop)]
pub struct FakeRuntime {
    alloc: Global,
    file: Vec<u8>,
    conduct: Conduct,
    writes: Cell<u64>,
    written: RefCell<Vec<u8>>,
    printed: RefCell<Vec<u8>>,
}

#[derive(Drop)]
pub struct FakeFile {
    bytes: Vec<u8>,
    taken: usize,
    reads: u64,
    conduct: Conduct,
}

fn refused<T>() -> io::Result<T>
    ensures { IsErr result }
{
    Err(io::Error::from(ErrorKind::Unsupported))
}

fn broken<T>() -> io::Result<T>
    ensures { IsErr result }
{
    Err(io::Error::from(ErrorKind::BrokenPipe))
}

impl FakeRuntime {
    /// A runtime with this file under every name, to which nothing was written. It errs only for want of memory.
    pub fn new(alloc: Global, file: &[u8], conduct: Conduct) -> Result<FakeRuntime, AllocError> {
        Ok(FakeRuntime {
            alloc,
            file: Vec::from_slice(alloc, file)?,
            conduct,
            writes: Cell::new(0),
            written: RefCell::new(Vec::new(alloc)),
            printed: RefCell::new(Vec::new(alloc)),
        })
    }

    /// Whether these bytes were written to the standard output.
    pub fn has_written(&self, bytes: &[u8]) -> bool {
        holds(&self.written, bytes)
    }

    /// Whether the front of these bytes was written to the standard output, and nothing else.
    pub fn has_written_front(&self, bytes: &[u8]) -> bool {
        match self.written.try_borrow() {
            Ok(written) => bytes.starts_with(written.as_slice()),
            Err(_) => false,
        }
    }

    /// Whether these bytes were written to the standard error.
    pub fn has_printed(&self, bytes: &[u8]) -> bool {
        holds(&self.printed, bytes)
    }
}

fn holds(output: &RefCell<Vec<u8>>, bytes: &[u8]) -> bool {
    match output.try_borrow() {
        Ok(held) => held.as_slice() == bytes,
        Err(_) => false,
    }
}

fn keep(output: &RefCell<Vec<u8>>, bytes: &[u8]) -> io::Result<()> {
    match output.try_borrow_mut() {
        Ok(mut held) => {
            held.extend_from_slice(bytes)?;
            Ok(())
        }
        Err(_) => refused(),
    }
}

impl Print for FakeRuntime {
    fn print<D: Display + Drop>(&self, _value: D) -> io::Result<()> {
        refused()
    }

    fn println<D: Display + Drop>(&self, _value: D) -> io::Result<()> {
        refused()
    }

    fn write_all(&self, _bytes: &[u8]) -> io::Result<()> {
        refused()
    }

    fn write_some(&self, bytes: &[u8]) -> io::Result<usize> {
        let number = self.writes.get().saturating_add(1);
        self.writes.set(number);
        if number == self.conduct.failing_write {
            return broken();
        }
        let count = bytes.len().min(self.conduct.write_piece);
        keep(&self.written, &bytes[..count])?;
        Ok(count)
    }
}

impl Eprint for FakeRuntime {
    fn eprint<D: Display + Drop>(&self, value: D) -> io::Result<()> {
        if !self.conduct.prints {
            return broken();
        }
        let text = format!(in self.alloc; "{value}")?;
        keep(&self.printed, text.as_bytes())
    }

    fn eprintln<D: Display + Drop>(&self, _value: D) -> io::Result<()> {
        refused()
    }
}

impl Read for FakeFile {
    fn read(&mut self, buf: &mut [u8]) -> io::Result<usize> {
        self.reads = self.reads.saturating_add(1);
        if self.reads == self.conduct.failing_read {
            return broken();
        }
        let rest = &self.bytes[self.taken.min(self.bytes.len())..];
        let count = rest.len().min(buf.len()).min(self.conduct.read_piece);
        buf[..count].copy_from_slice(&rest[..count]);
        self.taken = self.taken.saturating_add(count);
        Ok(count)
    }
}

impl Write for FakeFile {
    fn write(&mut self, _buf: &[u8]) -> io::Result<usize> {
        refused()
    }

    fn flush(&mut self) -> io::Result<()> {
        refused()
    }
}

impl Seek for FakeFile {
    fn seek(&mut self, _to: SeekFrom) -> io::Result<u64> {
        refused()
    }
}

impl std::fs::OpenFile for FakeFile {
    fn metadata(&self) -> io::Result<Metadata> {
        refused()
    }

    fn set_len(&self, _size: u64) -> io::Result<()> {
        refused()
    }

    fn sync_all(&self) -> io::Result<()> {
        refused()
    }

    fn sync_data(&self) -> io::Result<()> {
        refused()
    }
}

// Its one file has every name but the empty one.
impl Files for FakeRuntime {
    type File = FakeFile;

    type Dir = FakeFile;

    fn open_file(&self, _how: &OpenOptions, path: &str) -> io::Result<FakeFile> {
        if path.is_empty() {
            return refused();
        }
        Ok(FakeFile {
            bytes: Vec::from_slice(self.alloc, self.file.as_slice())?,
            taken: 0,
            reads: 0,
            conduct: self.conduct,
        })
    }

    fn open_dir(&self, _path: &str) -> io::Result<FakeFile> {
        refused()
    }

    fn metadata(&self, _path: &str) -> io::Result<Metadata> {
        refused()
    }

    fn symlink_metadata(&self, _path: &str) -> io::Result<Metadata> {
        refused()
    }

    fn copy(&self, _from: &str, _to: &str) -> io::Result<u64> {
        refused()
    }

    fn rename(&self, _from: &str, _to: &str) -> io::Result<()> {
        refused()
    }

    fn remove_file(&self, _path: &str) -> io::Result<()> {
        refused()
    }

    fn create_dir(&self, _path: &str) -> io::Result<()> {
        refused()
    }

    fn remove_dir(&self, _path: &str) -> io::Result<()> {
        refused()
    }

    fn remove_dir_all<B: Allocator>(&self, _alloc: B, _path: &str) -> io::Result<()> {
        refused()
    }
}
