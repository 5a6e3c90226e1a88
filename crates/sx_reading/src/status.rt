// How a call of the program ended.
ghost use Rattle.std.specs.Prelude.{◌≡◌, ◌+◌, ◌≤◌, ◌++◌, length};
ghost use Rattle.arrayvec.specs.ArrayVec.{array_vec_len};
ghost use Rattle.sx_reading.specs.Answers.{status_number, diagnostic_of, static_line, dynamic_line};
ghost use Rattle.sx_reading.specs.Answers.{fault_line, input_name};

use arrayvec::ArrayVec;
use itoa::Buffer;
use sx_atoms::Code;
use sx_limits::DocFault;

/// A line of the diagnostic output. The longest that a call answers has 55 bytes: `error document-UnboundPrefix line `, a
/// number of twenty digits and a newline. That of any status has `limit-` besides.
pub type DiagnosticLine = ArrayVec<u8, 61>;

/// Which of the two inputs.
#[derive(Clone, Copy, Debug, PartialEq, Eq)]
pub enum Input {
    /// The stylesheet.
    Sheet,
    /// The document.
    Document,
}

impl Input {
    // The word that diagnostic lines have for it.
    fn name(self) -> &'static str
        ensures { result.now ≡ input_name self }
    {
        match self {
            Input::Sheet => "sheet",
            Input::Document => "document",
        }
    }
}

/// How a call ended.
#[derive(Clone, Copy, Debug, PartialEq, Eq)]
pub enum Status {
    /// The whole result was written.
    Ok,
    /// The words are none that the program knows.
    Usage,
    /// The stylesheet has an error on this line.
    Static {
        /// That error.
        code: Code,
        /// The number of the line, from 1.
        line: u64,
    },
    /// An error was found while the document was read.
    Dynamic {
        /// That error.
        code: Code,
    },
    /// An input is broken off, since it has not the form of a document.
    Malformed {
        /// That input.
        input: Input,
        /// What is wrong with it, and where.
        fault: DocFault,
    },
    /// A file could not be opened.
    OpenFault,
    /// A read failed.
    ReadFault,
    /// A write to the result failed.
    WriteFault,
    /// An input is broken off, since it goes beyond a limit.
    Limit {
        /// That input.
        input: Input,
        /// Which limit, and where.
        fault: DocFault,
    },
    /// Memory was wanting.
    OutOfMemory,
}

// Appends a part for which there is room.
fn add(line: &mut DiagnosticLine, part: &[u8])
    requires { array_vec_len line.old + length part.now ≤ 61 }
    ensures { line.new.items ≡ line.old.items ++ part.now }
{
    let _ = line.try_extend_from_slice(part);
}

// A line of these bytes.
fn plain(text: &[u8]) -> DiagnosticLine
    requires { length text.now ≤ 61 }
    ensures { result.items ≡ text.now }
{
    let mut line = DiagnosticLine::new();
    add(&mut line, text);
    line
}

// The line of an error in the stylesheet.
fn static_error(code: Code, number: u64) -> DiagnosticLine
    ensures { result.items ≡ static_line code number }
{
    let mut buffer = Buffer::new();
    let mut line = DiagnosticLine::new();
    add(&mut line, b"error ");
    add(&mut line, &code.text());
    add(&mut line, b" line ");
    add(&mut line, buffer.format(number).as_bytes());
    add(&mut line, b"\n");
    line
}

// The line of an error that was found while the document was read.
fn dynamic_error(code: Code) -> DiagnosticLine
    ensures { result.items ≡ dynamic_line code }
{
    let mut line = DiagnosticLine::new();
    add(&mut line, b"error ");
    add(&mut line, &code.text());
    add(&mut line, b"\n");
    line
}

// The line of an input that is broken off.
fn broken_off(input: Input, between: &[u8], fault: DocFault) -> DiagnosticLine
    requires { length between.now ≤ 7 }
    ensures { result.items ≡ fault_line input between.now fault }
{
    let mut buffer = Buffer::new();
    let mut line = DiagnosticLine::new();
    add(&mut line, b"error ");
    add(&mut line, input.name().as_bytes());
    add(&mut line, between);
    add(&mut line, fault.which.name().as_bytes());
    add(&mut line, b" line ");
    add(&mut line, buffer.format(fault.line).as_bytes());
    add(&mut line, b"\n");
    line
}

impl Status {
    /// The exit status of the program.
    pub fn number(&self) -> u8
        ensures { result ≡ status_number self.now }
    {
        match self {
            Status::Ok => 0,
            Status::Usage => 1,
            Status::Static { .. } => 2,
            Status::Dynamic { .. } => 3,
            Status::Malformed { .. } => 4,
            Status::OpenFault => 5,
            Status::ReadFault => 6,
            Status::WriteFault => 7,
            Status::Limit { .. } => 8,
            Status::OutOfMemory => 9,
        }
    }

    /// The line that is written to the diagnostic output, with its newline; nothing after `Ok`.
    pub fn diagnostic(&self) -> DiagnosticLine
        ensures { result.items ≡ diagnostic_of self.now }
    {
        match self {
            Status::Ok => plain(b""),
            Status::Usage => plain(b"error usage\n"),
            Status::Static { code, line } => static_error(*code, *line),
            Status::Dynamic { code } => dynamic_error(*code),
            Status::Malformed { input, fault } => broken_off(*input, b"-", *fault),
            Status::OpenFault => plain(b"error open\n"),
            Status::ReadFault => plain(b"error read\n"),
            Status::WriteFault => plain(b"error write\n"),
            Status::Limit { input, fault } => broken_off(*input, b"-limit-", *fault),
            Status::OutOfMemory => plain(b"error memory\n"),
        }
    }
}
