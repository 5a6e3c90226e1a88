// The desks of rows: a stylesheet `sheet` and a document `doc` in memory.
ghost use Rattle.std.specs.Prelude.{◌≡◌, [], IfOk};
ghost use Rattle.sx_desk.specs.Mem.{mem_seen};
ghost use Rattle.sx_desk.specs.Steady.{steady_seen};

use crate::settings::Settings;
use crate::texts::lines;
use std::alloc::{AllocError, Global};
use sx_desk::{MemDesk, MemFile, MemFiles, SteadyDesk};

fn file(alloc: Global, name: &str, text: &str) -> Result<MemFile, AllocError> {
    Ok(MemFile {
        name: String::from_str(alloc, name)?,
        bytes: lines(alloc, text)?,
    })
}

fn files(alloc: Global, sheet: &str, document: &str) -> Result<MemFiles, AllocError> {
    let mut files = MemFiles::new(alloc);
    files.push(file(alloc, "sheet", sheet)?)?;
    files.push(file(alloc, "doc", document)?)?;
    Ok(files)
}

/// A desk over the two files that fails where the settings say.
pub fn mem_desk(
    alloc: Global,
    settings: &Settings,
    sheet: &str,
    document: &str,
) -> Result<MemDesk, AllocError>
    ensures { IfOk result (λ d. (mem_seen d).opened ≡ []) }
{
    let files = files(alloc, sheet, document)?;
    let mut desk = MemDesk::new(alloc, files, settings.read, settings.write)?;
    desk.open_fails.push(settings.open_fails)?;
    desk.read_fails.push(settings.read_fails)?;
    desk.write_fails.push(settings.write_fails)?;
    Ok(desk)
}

/// A desk over the two files that never fails.
pub fn steady_desk(
    alloc: Global,
    settings: &Settings,
    sheet: &str,
    document: &str,
) -> Result<SteadyDesk, AllocError>
    ensures { IfOk result (λ d. (steady_seen d).opened ≡ []) }
{
    let files = files(alloc, sheet, document)?;
    SteadyDesk::new(alloc, files, settings.read, settings.write)
}
