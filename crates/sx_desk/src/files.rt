// The files that a desk in memory can open.
ghost use Rattle.std.specs.Prelude.{◌≡◌, [], unwrap_or, option_and_then};
ghost use Rattle.sx_desk.specs.Files.{file_place, bytes_in};

use sqlite_items::Items;

/// A file that a desk in memory can open: its name, and its bytes.
#[derive(Drop)]
pub struct MemFile {
    pub name: String,
    pub bytes: Vec<u8>,
}

/// The files that a desk in memory can open. Of two files of one name the earlier one counts.
pub type MemFiles = Items<MemFile>;

/// The place of the first file of a name.
pub fn place_of(files: &[MemFile], name: &str) -> Option<usize>
    ensures { result ≡ file_place files.now name.now }
{
    files.iter().position(|file| file.name.as_str() == name)
}

/// The bytes of the file at a place: none where there is no such file.
pub fn bytes_at(files: &[MemFile], place: Option<usize>) -> &[u8]
    ensures { result.now ≡ unwrap_or (option_and_then (bytes_in files.now) place) [] }
{
    match place {
        Some(at) => {
            if at < files.len() {
                return files[at].bytes.as_slice();
            }
            &[]
        }
        None => &[],
    }
}
