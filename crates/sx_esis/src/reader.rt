// A reader of lines.
ghost use Rattle.std.specs.Prelude.{◌≡◌, ℕ, ◌+◌, ◌-◌, ◌^◌, ◌<◌, min, Bool, true};
ghost use Rattle.std.specs.Prelude.{false, List, [], ◌++◌, None, Ok, Err, IfOk, IfErr, OnOk, OnErr};
ghost use Rattle.std.specs.Prelude.{length};
ghost use Rattle.std.specs.Str.{IsUtf8};
ghost use Rattle.sx_esis.specs.Forms.{Fits, says_in};
ghost use Rattle.sx_esis.specs.Lines.{line_within};
ghost use Rattle.sx_esis.specs.Buffered.{taken_line, waiting};
ghost use Rattle.sx_esis.specs.LineReader.{IsLineShown, LinesStand, line_shown, unread};
ghost use Rattle.sx_esis.specs.Gives.{AdvancesLine, Fails, IsLineGiven, Judges, view_line};

use crate::faults::{LineFault, LineWhich};
use crate::form::{Form, form_of};
use crate::line_buffer::LineBuffer;
use std::alloc::{AllocError, Global};
use std::str;

/// What a line says, lent from the reader's buffer. Names, texts and values have no escapes left.
#[derive(Clone, Copy, Debug, PartialEq, Eq, Drop)]
pub enum LineView<'a> {
    /// `(`: an element of this name starts.
    Start(&'a str),
    /// `)`: an element of this name ends.
    End(&'a str),
    /// `A`: the element that starts next has an attribute of this name and value.
    Attr { name: &'a str, value: &'a str },
    /// `A` with `IMPLIED`: the element that starts next has no attribute of this name.
    Implied(&'a str),
    /// `-`: text.
    Text(&'a str),
    /// `?`: a processing instruction, with its target in front.
    Pi(&'a str),
    /// A line that tells nothing of the document.
    Skipped,
    /// `C`: the document conformed.
    Conforming,
}

/// Reads lines from bytes that come in pieces of any lengths.
#[derive(Drop)]
pub struct LineReader {
    buffer: LineBuffer,
    limit: u64,
    ended: bool,
    fault: Option<LineWhich>,
    number: u64,
    form: Form,
}

/// Bytes that are known to be UTF-8, as a text.
pub(crate) fn text(bytes: &[u8]) -> &str
    requires { IsUtf8 bytes.now }
    ensures { result.now ≡ bytes.now }
{
    unsafe { str::from_utf8_unchecked(bytes) }
}

fn view_of(form: Form, line: &[u8]) -> LineView<'_>
    requires { Fits form line.now }
    ensures { view_line result ≡ says_in form line.now }
{
    match form {
        Form::Start => LineView::Start(text(&line[1..])),
        Form::End => LineView::End(text(&line[1..])),
        Form::Text => LineView::Text(text(&line[1..])),
        Form::Pi => LineView::Pi(text(&line[1..])),
        Form::Attr {
            name_end,
            value_start,
        } => LineView::Attr {
            name: text(&line[1..name_end]),
            value: text(&line[value_start..]),
        },
        Form::Implied { name_end } => LineView::Implied(text(&line[1..name_end])),
        Form::Conforming => LineView::Conforming,
        Form::Skipped => LineView::Skipped,
    }
}

/// Reads the line that was taken, and replaces its escapes.
fn read_line(buffer: &mut LineBuffer, limit: u64) -> Result<Form, LineWhich>
    ensures ok { IfOk result (λ form. (line_within limit (taken_line buffer.old)
        ≡ Ok (says_in form (taken_line buffer.new)))
        × Fits form (taken_line buffer.new)) }
    ensures err { IfErr result (λ w. line_within limit (taken_line buffer.old) ≡ Err w) }
    ensures rest { waiting buffer.new ≡ waiting buffer.old }
{
    if buffer.line().len() as u64 > limit {
        return Err(LineWhich::Line);
    }
    let form = form_of(buffer.line())?;
    if let Some(start) = form.text_start() {
        buffer.unescape_line(start)?;
    }
    Ok(form)
}

impl LineReader {
    ghost use Rattle.std.specs.Prelude.{⊤};
    ghost use Rattle.std.specs.Borrow.{sem, follows_so};
    ghost use mathlib.Core.Option.{none};
    ghost use Rattle.sx_esis.specs.contracts.reader.LineReader.{the_row};
    ghost use Rattle.sx_esis.specs.Gives.{Follows};

    /// A reader of lines of at most `limit` bytes, not counting the newline.
    pub fn new(alloc: Global, limit: u64) -> LineReader
        ensures { LinesStand result limit [] false 0 }
    {
        LineReader {
            buffer: LineBuffer::new(alloc),
            limit,
            ended: false,
            fault: None,
            number: 0,
            form: Form::Skipped,
        }
    }

    /// Takes the next bytes. After an `Err`, which says that memory ran out, nothing has changed.
    /// Where a fault was met they change nothing.
    pub fn feed(&mut self, piece: &[u8]) -> Result<(), AllocError>
        ensures ok { (limit : ℕ) (bytes : List ℕ) (given : ℕ)
            → LinesStand self.old limit bytes false given
            → OnOk result (LinesStand self.new limit (bytes ++ piece.now) false given) }
        ensures err { (limit : ℕ) (bytes : List ℕ) (ended : Bool) (given : ℕ)
            → LinesStand self.old limit bytes ended given
            → OnErr result (LinesStand self.new limit bytes ended given) }
    {
        if self.fault.is_some() {
            return Ok(());
        }
        self.buffer.append(piece)
    }

    /// Says that there are no more bytes.
    pub fn finish(&mut self)
        ensures { (limit : ℕ) (bytes : List ℕ) (ended : Bool) (given : ℕ)
            → LinesStand self.old limit bytes ended given → LinesStand self.new limit bytes true given }
    {
        self.ended = true;
    }

    /// The number of the last line given, counted from 1, and 0 before the first.
    pub fn line(&self) -> u64
        ensures { (limit : ℕ) (bytes : List ℕ) (ended : Bool) (given : ℕ)
            → LinesStand self.now limit bytes ended given → length bytes < 2 ^ 62 → result ≡ given }
    {
        self.number
    }

    /// The next line. `None` says that no more lines have come so far. The first line that is longer
    /// than the limit or at fault in another way ends the lines, and from then on the answer stays that fault.
    pub fn next(&mut self) -> Option<Result<LineView<'_>, LineFault>>
        ensures* { sem 𝓛 (follows_so the_row the_row self.entry.ghost_name none (λ _ _. ⊤)
            (λ new. Follows self.old result new)) }
    {
        match self.advance() {
            None => None,
            Some(Ok(())) => Some(Ok(self.view())),
            Some(Err(fault)) => Some(Err(fault)),
        }
    }

    /// Goes to the next line, which `view` then shows.
    fn advance(&mut self) -> Option<Result<(), LineFault>>
        ensures gives { (limit : ℕ) (bytes : List ℕ) (ended : Bool) (given : ℕ)
            → LinesStand self.old limit bytes ended given
            → AdvancesLine limit bytes ended given self.new result }
        ensures shown { IsLineGiven result → IsLineShown self.new }
        ensures progress { IsLineGiven result → unread self.new < unread self.old }
    {
        match self.fault {
            None => self.go_on(),
            Some(which) => Some(Err(self.fail(which))),
        }
    }

    /// The same where no fault was met.
    fn go_on(&mut self) -> Option<Result<(), LineFault>>
        requires { self.old.fault ≡ None }
        ensures gives { (limit : ℕ) (bytes : List ℕ) (ended : Bool) (given : ℕ)
            → LinesStand self.old limit bytes ended given
            → AdvancesLine limit bytes ended given self.new result }
        ensures shown { IsLineGiven result → IsLineShown self.new }
        ensures progress { IsLineGiven result → unread self.new < unread self.old }
    {
        if let Some(line_length) = self.buffer.find_line() {
            self.buffer.take_line(line_length);
            return Some(self.judge());
        }
        let rest = self.buffer.waiting_len();
        if rest as u64 > self.limit {
            return Some(Err(self.fail(LineWhich::Line)));
        }
        if rest == 0 || !self.ended {
            return None;
        }
        self.buffer.take_rest();
        Some(self.judge())
    }

    /// The line that `advance` went to.
    fn view(&self) -> LineView<'_>
        requires { IsLineShown self.now }
        ensures { view_line result ≡ line_shown self.now }
    {
        view_of(self.form, self.buffer.line())
    }

    /// Reads the line that was taken.
    fn judge(&mut self) -> Result<(), LineFault>
        ensures { Judges self.old self.new result }
    {
        match read_line(&mut self.buffer, self.limit) {
            Ok(form) => {
                self.form = form;
                self.number = self.number.saturating_add(1);
                Ok(())
            }
            Err(which) => Err(self.fail(which)),
        }
    }

    fn fail(&mut self, which: LineWhich) -> LineFault
        ensures fails { Fails self.old self.new result }
        ensures which { result.which ≡ which }
    {
        self.fault = Some(which);
        LineFault {
            which,
            line: self.number.saturating_add(1),
        }
    }
}
