// What a desk in memory records of the calls to it.
ghost use Rattle.std.specs.Prelude.{◌≡◌, ◌≤◌, vec_len, vec_capacity};

use crate::Out;
use crate::files::{MemFile, bytes_at, place_of};
use crate::opened::{
    Marks, OpenedFile, add_file, add_mark, marks_at, name_at, place_at, take, taken_at,
};
use crate::pieces::{copy_piece, keep_name};
use std::alloc::{AllocError, Global};

// The number of opened files for whose records there is room from the start.
const ROOM: usize = 66;

/// The calls to a desk in memory. No file is recorded after one for which there was no room.
#[derive(Drop)]
pub struct CallHistory {
    alloc: Global,
    complete: bool,
    opened: u32,
    files: Vec<OpenedFile>,
    asked: Vec<String>,
    result: Vec<u8>,
    diagnostic: Vec<u8>,
    ghost room: { 66 ≤ vec_capacity files },
    ghost recorded: { opened ≤ 66 → vec_len files ≡ opened },
}

impl CallHistory {
    ghost use Rattle.std.specs.Prelude.{◌≡◌, ℕ, ◌+◌, ◌-◌, ◌^◌, ◌<◌, ◌≤◌};
    ghost use Rattle.std.specs.Prelude.{◌≢◌, [], ◌∷◌, ◌++◌, IsTrue, IfOk, IfSome, length};
    ghost use Rattle.std.specs.Prelude.{take, slice_index, slice_index_or, slice_set, is_some};
    ghost use Rattle.sx_desk.specs.Pieces.{IsPiece, least_of};
    ghost use Rattle.sx_desk.specs.Opened.{names_of_opened, places_of, taken_of, marks_of};
    ghost use Rattle.sx_desk.specs.History.{tells, opened_names, asked_names, written_to, source_of};
    ghost use Rattle.sx_desk.specs.History.{KeepsFiles, KeepsOutputs};

    /// No calls yet, with room for the records of 66 opened files.
    pub fn new(alloc: Global) -> Result<CallHistory, AllocError>
        ensures tells { IfOk result (λ h. IsTrue (tells h)) }
        ensures opened { IfOk result (λ h. h.opened ≡ 0) }
        ensures files { IfOk result (λ h. h.files.items ≡ []) }
        ensures asked { IfOk result (λ h. asked_names h ≡ []) }
        ensures written { IfOk result (λ h. (o : Out) → written_to h o ≡ []) }
    {
        Ok(CallHistory {
            alloc,
            complete: true,
            opened: 0,
            files: Vec::with_capacity(alloc, ROOM)?,
            asked: Vec::new(alloc),
            result: Vec::new(alloc),
            diagnostic: Vec::new(alloc),
        })
    }

    // Whether every call was recorded.
    fn tells(&self) -> bool
        ensures { result ≡ tells self.now }
    {
        self.complete && self.opened as usize == self.files.len()
    }

    /// What was written to an output, where every call was recorded.
    pub fn written(&self, out: Out) -> Option<&[u8]>
        ensures known { is_some result ≡ tells self.now }
        ensures bytes { IfSome result (λ bytes. bytes.now ≡ written_to self.now out) }
    {
        if !self.tells() {
            return None;
        }
        match out {
            Out::Result => Some(&self.result),
            Out::Diagnostic => Some(&self.diagnostic),
        }
    }

    /// The marks of an opened file, where every call was recorded.
    pub fn marks(&self, file: u32) -> Option<&Marks>
        requires { file < self.now.opened }
        ensures known { is_some result ≡ tells self.now }
        ensures marks { IfSome result (λ marks. marks.now
            ≡ slice_index_or (marks_of self.now.files.items) file []) }
    {
        if !self.tells() {
            return None;
        }
        Some(marks_at(&self.files, file as usize))
    }

    /// Records that a name was asked for.
    pub fn ask(&mut self, name: &str)
        ensures known { IsTrue (tells self.new) → IsTrue (tells self.old) }
        ensures asked { IsTrue (tells self.new)
            → asked_names self.new ≡ asked_names self.old ++ name.now ∷ [] }
        ensures files { KeepsFiles self.old self.new }
        ensures outputs { KeepsOutputs self.old self.new }
    {
        self.complete &= keep_name(self.alloc, &mut self.asked, name).is_ok();
    }

    /// Records that a file was opened, and gives its number. The places of the first 66 are known in any case.
    pub fn open(&mut self, name: &str, place: Option<usize>) -> u32
        requires { self.old.opened < 2 ^ 32 - 1 }
        ensures number { result ≡ self.old.opened }
        ensures opened { self.new.opened ≡ self.old.opened + 1 }
        ensures known { IsTrue (tells self.new) → IsTrue (tells self.old) }
        ensures names { IsTrue (tells self.new)
            → names_of_opened self.new.files.items
            ≡ names_of_opened self.old.files.items ++ name.now ∷ [] }
        ensures taken { IsTrue (tells self.new)
            → taken_of self.new.files.items ≡ taken_of self.old.files.items ++ 0 ∷ [] }
        ensures marks { IsTrue (tells self.new)
            → marks_of self.new.files.items ≡ marks_of self.old.files.items ++ [] ∷ [] }
        ensures places { self.old.opened < 66
            → places_of self.new.files.items ≡ places_of self.old.files.items ++ place ∷ [] }
        ensures asked { asked_names self.new ≡ asked_names self.old }
        ensures outputs { KeepsOutputs self.old self.new }
    {
        let number = self.opened;
        self.complete &= number as usize == self.files.len()
            && add_file(self.alloc, &mut self.files, name, place).is_ok();
        self.opened = number + 1;
        number
    }

    /// Records the beginning of a read of a file.
    pub fn mark(&mut self, file: u32)
        requires { file < self.old.opened }
        ensures opened { self.new.opened ≡ self.old.opened }
        ensures known { IsTrue (tells self.new) → IsTrue (tells self.old) }
        ensures names { names_of_opened self.new.files.items ≡ names_of_opened self.old.files.items }
        ensures places { places_of self.new.files.items ≡ places_of self.old.files.items }
        ensures taken { taken_of self.new.files.items ≡ taken_of self.old.files.items }
        ensures marks { IsTrue (tells self.new)
            → marks_of self.new.files.items ≡ slice_set (marks_of self.old.files.items) file
            (slice_index_or (marks_of self.old.files.items) file []
            ++ (slice_index (taken_of self.old.files.items) file, length self.old.result.items) ∷ []) }
        ensures asked { asked_names self.new ≡ asked_names self.old }
        ensures outputs { KeepsOutputs self.old self.new }
    {
        let at = file as usize;
        self.complete &= at < self.files.len()
            && add_mark(&mut self.files, at, self.result.len()).is_ok();
    }

    /// Takes the next bytes of a file, at most so many at once, puts them into the front of the buffer, and gives their
    /// number.
    pub fn take_next(&mut self, files: &[MemFile], file: u32, most: u32, buf: &mut [u8]) -> usize
        requires { 0 < length buf.old }
        ensures at_most { result ≤ length buf.new }
        ensures piece { IsPiece (source_of files.now self.old file)
            (slice_index (taken_of self.old.files.items) file) buf.new result }
        ensures count { result ≡ least_of most (length buf.new)
            (length (source_of files.now self.old file) - slice_index (taken_of self.old.files.items) file) }
        ensures opened { self.new.opened ≡ self.old.opened }
        ensures known { tells self.new ≡ tells self.old }
        ensures names { names_of_opened self.new.files.items ≡ names_of_opened self.old.files.items }
        ensures places { places_of self.new.files.items ≡ places_of self.old.files.items }
        ensures taken { taken_of self.new.files.items
            ≡ slice_set (taken_of self.old.files.items) file
            (slice_index (taken_of self.old.files.items) file + result) }
        ensures marks { marks_of self.new.files.items ≡ marks_of self.old.files.items }
        ensures asked { asked_names self.new ≡ asked_names self.old }
        ensures outputs { KeepsOutputs self.old self.new }
    {
        let at = file as usize;
        let bytes = self.source(files, at);
        let taken = taken_at(&self.files, at);
        let count = copy_piece(bytes, taken, most, buf);
        take(&mut self.files, at, count);
        count
    }

    // The bytes of an opened file.
    fn source<'a>(&self, files: &'a [MemFile], at: usize) -> &'a [u8]
        ensures { result.now ≡ source_of files.now self.now at }
    {
        if !self.tells() {
            return bytes_at(files, place_at(&self.files, at));
        }
        if at >= self.files.len() {
            return &[];
        }
        bytes_at(files, place_of(files, name_at(&self.files, at)))
    }

    /// Appends the front of a piece to an output, at most so many bytes at once, and gives their number.
    pub fn write(&mut self, out: Out, piece: &[u8], most: u32) -> usize
        requires { 0 < length piece.now }
        ensures some { 1 ≤ result }
        ensures at_most { result ≤ length piece.now }
        ensures count { result ≡ least_of most (length piece.now) (length piece.now) }
        ensures known { IsTrue (tells self.new) → IsTrue (tells self.old) }
        ensures appended { IsTrue (tells self.new)
            → written_to self.new out ≡ written_to self.old out ++ take result piece.now }
        ensures others { (o : Out) → o ≢ out → written_to self.new o ≡ written_to self.old o }
        ensures files { KeepsFiles self.old self.new }
        ensures asked { asked_names self.new ≡ asked_names self.old }
    {
        let count = piece.len().min(most.max(1) as usize);
        let front = &piece[..count];
        match out {
            Out::Result => self.complete &= self.result.extend_from_slice(front).is_ok(),
            Out::Diagnostic => self.complete &= self.diagnostic.extend_from_slice(front).is_ok(),
        }
        count
    }
}
