// What a program may ask of the outside.
ghost use Rattle.std.specs.Prelude.{◌≡◌, ◌<◌, ◌-◌, ◌^◌, length};
ghost use Rattle.sx_desk.specs.Desk.{Seen, Opens, Reads, Writes, IsWhole};

/// The two outputs.
#[derive(Clone, Copy, Debug, PartialEq, Eq)]
pub enum Out {
    Result,
    Diagnostic,
}

/// The outside failed; the count of such faults rose.
#[derive(Clone, Copy, Debug, PartialEq, Eq)]
pub struct Failed;

/// Files to read and two outputs to write. Contracts speak of what a desk tells, `seen`, before and after each call.
pub trait Desk {
    /// What is known of the desk at a moment.
    ghost seen: { Self → Seen };

    /// Opens a file by its name, and gives its number: files are numbered from 0 in the order in which they were
    /// opened. It fails only where the count of open faults rose.
    fn open_file(&mut self, name: &str) -> Result<u32, Failed>
        requires { length (seen self.old).opened < 2 ^ 32 - 1 }
        ensures { Opens name.now (seen self.old) (seen self.new) result };

    /// Puts the next bytes of a file into the front of the buffer, and gives their number; 0 says that all were
    /// taken. It fails only where the count of read faults rose, and then nothing was taken.
    fn read(&mut self, file: u32, buf: &mut [u8]) -> Result<usize, Failed>
        requires room { 0 < length buf.old }
        requires given { file < length (seen self.old).opened }
        ensures { Reads file (seen self.old) (seen self.new) buf.new result };

    /// Appends the front of a piece to an output, and gives the number of its bytes, at least 1. It fails only where
    /// the count of that output's write faults rose, and then nothing was appended.
    fn write(&mut self, out: Out, piece: &[u8]) -> Result<usize, Failed>
        requires { 0 < length piece.now }
        ensures { Writes out piece.now (seen self.old) (seen self.new) result };

    /// A desk that tells and shows counts the bytes that it has written.
    ghost whole: { (d : Self) → IsWhole (seen d) };
}
