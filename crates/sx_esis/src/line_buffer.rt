// The bytes that wait, and the line that was taken from their front.
ghost use Rattle.std.specs.Prelude.{◌≡◌, ℕ, ◌+◌, ◌<◌, ◌≤◌, List, [], ◌++◌, length};
ghost use Rattle.std.specs.Prelude.{take, drop, Ok, Err, IfOk, OnOk, OnErr, IfErr, MatchOption, IsTrue};
ghost use Rattle.std.specs.List.{list_all, slice_range};
ghost use Rattle.sx_esis.specs.Escapes.{unescape};
ghost use Rattle.sx_esis.specs.Inside.{IsFirstLine, is_inside};

use crate::escapes::unescape;
use crate::faults::LineWhich;
use memchr::memchr;
use std::alloc::{AllocError, Global};

/// One line that was taken, and the bytes behind it.
#[derive(Drop)]
pub(crate) struct LineBuffer {
    bytes: Vec<u8>,
    line_start: usize,
    line_end: usize,
    start: usize,
    searched: usize,
    ghost line_in_order: { line_start ≤ line_end },
    ghost line_before: { line_end ≤ start },
    ghost search_begun: { start ≤ searched },
    ghost search_within: { searched ≤ length bytes.items },
    ghost one_line: { IsTrue (list_all is_inside (slice_range bytes.items start searched)) },
}

impl LineBuffer {
    ghost use Rattle.sx_esis.specs.Buffered.{HasUnescaped, taken_line, waiting};

    pub(crate) fn new(alloc: Global) -> LineBuffer
        ensures line { taken_line result ≡ [] }
        ensures rest { waiting result ≡ [] }
    {
        LineBuffer {
            bytes: Vec::new(alloc),
            line_start: 0,
            line_end: 0,
            start: 0,
            searched: 0,
        }
    }

    /// How many bytes wait.
    pub(crate) fn waiting_len(&self) -> usize
        ensures { result ≡ length (waiting self.now) }
    {
        self.bytes.len() - self.start
    }

    /// The line that was taken last.
    pub(crate) fn line(&self) -> &[u8]
        ensures { result.now ≡ taken_line self.now }
    {
        &self.bytes[self.line_start..self.line_end]
    }

    /// How long the first line is that waits, where its newline has come.
    pub(crate) fn find_line(&mut self) -> Option<usize>
        ensures rest { waiting self.new ≡ waiting self.old }
        ensures found { MatchOption result (IsTrue (list_all is_inside (waiting self.old)))
            (IsFirstLine (waiting self.old)) }
    {
        match memchr(b'\n', &self.bytes[self.searched..]) {
            Some(place) => Some(self.searched - self.start + place),
            None => {
                self.searched = self.bytes.len();
                None
            }
        }
    }

    /// Takes a line of that length, and the newline behind it.
    pub(crate) fn take_line(&mut self, line_length: usize)
        requires { line_length < length (waiting self.old) }
        ensures line { taken_line self.new ≡ take line_length (waiting self.old) }
        ensures rest { waiting self.new ≡ drop (line_length + 1) (waiting self.old) }
    {
        let end = self.start + line_length;
        self.line_start = self.start;
        self.line_end = end;
        self.start = end + 1;
        self.searched = end + 1;
    }

    /// Takes all that waits as a line.
    pub(crate) fn take_rest(&mut self)
        ensures line { taken_line self.new ≡ waiting self.old }
        ensures rest { waiting self.new ≡ [] }
    {
        let end = self.bytes.len();
        self.line_start = self.start;
        self.line_end = end;
        self.start = end;
        self.searched = end;
    }

    /// Replaces the escapes of the line from this place on, or says what is wrong with the first one at fault. After an
    /// `Err` the line is any.
    pub(crate) fn unescape_line(&mut self, start: usize) -> Result<(), LineWhich>
        requires { start ≤ length (taken_line self.old) }
        ensures ok { OnOk result (HasUnescaped (taken_line self.old) start (taken_line self.new)) }
        ensures err { IfErr result (λ w. unescape (drop start (taken_line self.old)) ≡ Err w) }
        ensures rest { waiting self.new ≡ waiting self.old }
    {
        match unescape_part(&mut self.bytes, self.line_start + start, self.line_end) {
            Ok(end) => {
                self.line_end = end;
                Ok(())
            }
            Err(which) => Err(which),
        }
    }

    /// Adds bytes behind those that wait, and forgets the line.
    pub(crate) fn append(&mut self, piece: &[u8]) -> Result<(), AllocError>
        ensures ok { OnOk result (waiting self.new ≡ waiting self.old ++ piece.now) }
        ensures err { OnErr result (waiting self.new ≡ waiting self.old) }
    {
        if self.start > self.waiting_len() {
            self.move_to_front();
        }
        self.bytes.extend_from_slice(piece)
    }

    /// Moves what waits to the front, where it has room there.
    fn move_to_front(&mut self)
        requires { length (waiting self.old) ≤ self.old.start }
        ensures { waiting self.new ≡ waiting self.old }
    {
        drop_front(&mut self.bytes, self.start);
        self.line_start = 0;
        self.line_end = 0;
        self.searched -= self.start;
        self.start = 0;
    }
}

/// Replaces the escapes from one place to another, and gives where their text ends.
fn unescape_part(bytes: &mut Vec<u8>, start: usize, end: usize) -> Result<usize, LineWhich>
    requires order { start ≤ end }
    requires within { end ≤ length bytes.old.items }
    ensures ok { IfOk result (λ stop. (start ≤ stop) × (stop ≤ end)
        × (unescape (slice_range bytes.old.items start end)
        ≡ Ok (slice_range bytes.new.items start stop))) }
    ensures err { IfErr result (λ w. unescape (slice_range bytes.old.items start end) ≡ Err w) }
    ensures front { take start bytes.new.items ≡ take start bytes.old.items }
    ensures rest { (n : ℕ) → end ≤ n → drop n bytes.new.items ≡ drop n bytes.old.items }
    ensures length { length bytes.new.items ≡ length bytes.old.items }
{
    match unescape(&mut bytes[start..end]) {
        Ok(count) => Ok(start + count),
        Err(which) => Err(which),
    }
}

/// Copies the bytes behind the first `count` to the front, and says how many they are.
fn copy_to_front(bytes: &mut [u8], count: usize) -> usize
    requires within { count ≤ length bytes.old }
    requires room { length bytes.old ≤ count + count }
    ensures length { result + count ≡ length bytes.old }
    ensures front { take result bytes.new ≡ drop count bytes.old }
{
    let (front, rest) = bytes.split_at_mut(count);
    front[..rest.len()].copy_from_slice(rest);
    rest.len()
}

/// Drops the first `count` bytes, which are at least half.
fn drop_front(bytes: &mut Vec<u8>, count: usize)
    requires within { count ≤ length bytes.old.items }
    requires room { length bytes.old.items ≤ count + count }
    ensures { bytes.new.items ≡ drop count bytes.old.items }
{
    let left = copy_to_front(bytes, count);
    bytes.truncate(left);
}
