// The files that a desk in memory has opened.
ghost use Rattle.std.specs.Prelude.{◌≡◌, ◌+◌, ◌^◌, ◌<◌, ◌≤◌, [], ◌∷◌, ◌++◌};
ghost use Rattle.std.specs.Prelude.{IsOk, OnOk, None, length, string_bytes, slice_index, slice_index_or};
ghost use Rattle.std.specs.Prelude.{slice_set, slice_get, vec_len, vec_capacity};
ghost use Rattle.sx_desk.specs.Opened.{names_of_opened, places_of, taken_of, marks_of};

use sqlite_items::Items;
use std::alloc::{AllocError, Global};

/// The marks of a file, one for each read of it: at the beginning of the read, the number of its bytes taken before,
/// and the number of bytes written to the result.
pub type Marks = Items<(u64, u64)>;

/// An opened file. Its name is empty where there was no room for it.
#[derive(Drop)]
pub struct OpenedFile {
    name: String,
    // Of the file among those of the desk, when it was opened.
    place: Option<usize>,
    taken: usize,
    marks: Marks,
}

/// Adds a file of which nothing was taken. Where there is no room for its name, the file has an empty one.
pub fn add_file(
    alloc: Global,
    files: &mut Vec<OpenedFile>,
    name: &str,
    place: Option<usize>,
) -> Result<(), AllocError>
    ensures names { OnOk result (names_of_opened files.new.items
        ≡ names_of_opened files.old.items ++ name.now ∷ []) }
    ensures taken { OnOk result (taken_of files.new.items ≡ taken_of files.old.items ++ 0 ∷ []) }
    ensures marks { OnOk result (marks_of files.new.items ≡ marks_of files.old.items ++ [] ∷ []) }
    ensures places { vec_len files.old < vec_capacity files.old
        → places_of files.new.items ≡ places_of files.old.items ++ place ∷ [] }
    ensures len { vec_len files.old < vec_capacity files.old → vec_len files.new ≡ vec_len files.old + 1 }
    ensures room { vec_capacity files.old ≤ vec_capacity files.new }
{
    match String::from_str(alloc, name) {
        Ok(name) => push_file(files, name, place, Items::new(alloc)),
        Err(no_room) => {
            let _ = push_file(files, String::new(alloc), place, Items::new(alloc));
            Err(no_room)
        }
    }
}

fn push_file(
    files: &mut Vec<OpenedFile>,
    name: String,
    place: Option<usize>,
    marks: Marks,
) -> Result<(), AllocError>
    ensures added { OnOk result (files.new.items
        ≡ files.old.items ++ record { name = name; place = place; taken = 0; marks = marks } ∷ []) }
    ensures len { OnOk result (vec_len files.new ≡ vec_len files.old + 1) }
    ensures succeeds { vec_len files.old < vec_capacity files.old → IsOk result }
    ensures room { vec_capacity files.old ≤ vec_capacity files.new }
{
    files.push(OpenedFile {
        name,
        place,
        taken: 0,
        marks,
    })?;
    Ok(())
}

/// The name of a file.
pub fn name_at(files: &[OpenedFile], at: usize) -> &str
    requires { at < length files.now }
    ensures { slice_get (names_of_opened files.now) at ≡ Some result.now }
{
    files[at].name.as_str()
}

/// The place of a file: none for one that is not recorded.
pub fn place_at(files: &[OpenedFile], at: usize) -> Option<usize>
    ensures { result ≡ slice_index_or (places_of files.now) at None }
{
    if at < files.len() {
        files[at].place
    } else {
        None
    }
}

/// The marks of a file.
pub fn marks_at(files: &[OpenedFile], at: usize) -> &Marks
    requires { at < length files.now }
    ensures { result.now ≡ slice_index_or (marks_of files.now) at [] }
{
    &files[at].marks
}

/// How many bytes of a file were taken: 0 for one that is not recorded.
pub fn taken_at(files: &[OpenedFile], at: usize) -> usize
    ensures { result ≡ slice_index (taken_of files.now) at }
{
    if at < files.len() { files[at].taken } else { 0 }
}

/// Adds a mark to a file.
pub fn add_mark(files: &mut Vec<OpenedFile>, at: usize, written: usize) -> Result<(), AllocError>
    requires { at < vec_len files.old }
    ensures names { names_of_opened files.new.items ≡ names_of_opened files.old.items }
    ensures places { places_of files.new.items ≡ places_of files.old.items }
    ensures taken { taken_of files.new.items ≡ taken_of files.old.items }
    ensures marks { OnOk result (marks_of files.new.items ≡ slice_set (marks_of files.old.items) at
        (slice_index_or (marks_of files.old.items) at []
        ++ (slice_index (taken_of files.old.items) at, written) ∷ [])) }
    ensures len { vec_len files.new ≡ vec_len files.old }
    ensures room { vec_capacity files.old ≤ vec_capacity files.new }
{
    let file = &mut files[at];
    file.marks.push((file.taken as u64, written as u64))
}

/// Takes some bytes of a file.
pub fn take(files: &mut Vec<OpenedFile>, at: usize, count: usize)
    requires { slice_index (taken_of files.old.items) at + count < 2 ^ 64 }
    ensures names { names_of_opened files.new.items ≡ names_of_opened files.old.items }
    ensures places { places_of files.new.items ≡ places_of files.old.items }
    ensures marks { marks_of files.new.items ≡ marks_of files.old.items }
    ensures taken { taken_of files.new.items
        ≡ slice_set (taken_of files.old.items) at (slice_index (taken_of files.old.items) at + count) }
    ensures len { vec_len files.new ≡ vec_len files.old }
    ensures room { vec_capacity files.old ≤ vec_capacity files.new }
{
    if at >= files.len() {
        return;
    }
    let file = &mut files[at];
    file.taken += count;
}
