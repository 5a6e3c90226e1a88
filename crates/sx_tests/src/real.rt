// The real desk at the system, and at a runtime that moves few bytes and fails.
ghost use Rattle.std.specs.Prelude.{◌<◌, ◌^◌, length};

use crate::fake::{Conduct, FakeRuntime, WELL};
use std::alloc::{AllocError, Global};
use std::test::Fail;
use std::{env, fs, process};
use sx_desk::{Desk, Failed, Out, RealDesk};

// That of the program's buffer.
const BUFFER: usize = 65_536;

// More than two of them.
const LENGTH: u64 = 150_000;

// Bytes in which no buffer is like the one before it.
fn pattern(alloc: Global) -> Result<Vec<u8>, AllocError> {
    let mut bytes = Vec::new(alloc);
    for place in 0..LENGTH {
        bytes.push((place % 251) as u8)?;
    }
    Ok(bytes)
}

// Adds what one read gives, and tells its number: 0 at the end, and where it fails.
fn read_on<D: Desk>(
    desk: &mut D,
    file: u32,
    buf: &mut [u8],
    all: &mut Vec<u8>,
) -> Result<usize, AllocError>
    requires room { 0 < length buf.old }
    requires given { file < length (D.seen desk.old).opened }
    ensures given { file < length (D.seen desk.new).opened }
{
    match desk.read(file, buf) {
        Ok(count) => {
            all.extend_from_slice(&buf[..count])?;
            Ok(count)
        }
        Err(Failed) => Ok(0),
    }
}

// What the reads of a file give, up to its end or to one that fails.
fn read_all<D: Desk>(
    alloc: Global,
    desk: &mut D,
    name: &str,
    buf: &mut [u8],
) -> Result<Vec<u8>, AllocError>
    requires few { length (D.seen desk.old).opened < 2 ^ 31 }
    requires room { 0 < length buf.old }
{
    let mut all = Vec::new(alloc);
    let Ok(file) = desk.open_file(name) else {
        return Ok(all);
    };
    for _ in 0..9 {
        if read_on(desk, file, buf, &mut all)? == 0 {
            break;
        }
    }
    Ok(all)
}

#[test]
fn the_standard_outputs_take_what_is_written(rt: HostRuntime) -> Result<(), Fail> {
    let mut desk = RealDesk::new(rt.alloc(), &rt)?;
    let result = desk.write(Out::Result, b"a result\n");
    let diagnostic = desk.write(Out::Diagnostic, b"a diagnostic\n");
    assert!(rt; result == Ok(9) && diagnostic == Ok(13));
    Ok(())
}

#[test]
fn a_name_without_a_file_is_not_opened(rt: HostRuntime) -> Result<(), Fail> {
    let mut desk = RealDesk::new(rt.alloc(), &rt)?;
    let absent = desk.open_file("there/is/no/such/file");
    let there = desk.open_file("/dev/null");
    assert!(rt; absent == Err(Failed) && there == Ok(0));
    Ok(())
}

#[test]
fn a_long_file_is_read_to_its_end(rt: HostRuntime) -> Result<(), Fail> {
    let alloc = rt.alloc();
    let bytes = pattern(alloc)?;
    let folder = env::temp_dir(&rt)?;
    let number = process::id(rt.process());
    let path = format!(in alloc; "{}/sx_tests_{number}", folder.as_str())?;
    fs::write(&rt, path.as_str(), bytes.as_slice())?;
    let mut desk = RealDesk::new(alloc, &rt)?;
    let mut buf = vec![in alloc; 0u8; BUFFER]?;
    let all = read_all(alloc, &mut desk, path.as_str(), &mut buf);
    fs::remove_file(&rt, path.as_str())?;
    assert!(rt; all? == bytes);
    Ok(())
}

// The system opens a folder, and refuses to read it.
#[test]
fn a_folder_is_a_fault_of_reading(rt: HostRuntime) -> Result<(), Fail> {
    let mut desk = RealDesk::new(rt.alloc(), &rt)?;
    let Ok(folder) = desk.open_file("/") else {
        return Err("a folder is opened")?;
    };
    let mut buf = [0; 8];
    assert!(rt; desk.read(folder, &mut buf) == Err(Failed));
    Ok(())
}

#[test]
fn a_read_that_fails_is_no_end(rt: HostRuntime) -> Result<(), Fail> {
    let alloc = rt.alloc();
    let conduct = Conduct {
        read_piece: 3,
        failing_read: 2,
        ..WELL
    };
    let fake = FakeRuntime::new(alloc, b"hello", conduct)?;
    let mut desk = RealDesk::new(alloc, &fake)?;
    let Ok(file) = desk.open_file("doc") else {
        return Err("it is opened")?;
    };
    let mut buf = [0; 4];
    let first = desk.read(file, &mut buf);
    let broken = desk.read(file, &mut buf);
    let second = desk.read(file, &mut buf);
    let end = desk.read(file, &mut buf);
    assert!(rt; first == Ok(3) && broken == Err(Failed) && second == Ok(2) && end == Ok(0));
    assert!(rt; buf == *b"lol\0");
    Ok(())
}

#[test]
fn a_write_tells_what_was_taken(rt: HostRuntime) -> Result<(), Fail> {
    let alloc = rt.alloc();
    let conduct = Conduct {
        write_piece: 3,
        failing_write: 2,
        ..WELL
    };
    let fake = FakeRuntime::new(alloc, b"", conduct)?;
    let mut desk = RealDesk::new(alloc, &fake)?;
    let first = desk.write(Out::Result, b"hello");
    let broken = desk.write(Out::Result, b"lo");
    let second = desk.write(Out::Result, b"lo");
    assert!(rt; first == Ok(3) && broken == Err(Failed) && second == Ok(2));
    assert!(rt; fake.has_written(b"hello"));
    Ok(())
}

#[test]
fn a_write_that_takes_nothing_is_a_fault(rt: HostRuntime) -> Result<(), Fail> {
    let conduct = Conduct {
        write_piece: 0,
        ..WELL
    };
    let fake = FakeRuntime::new(rt.alloc(), b"", conduct)?;
    let mut desk = RealDesk::new(rt.alloc(), &fake)?;
    assert!(rt; desk.write(Out::Result, b"hello") == Err(Failed));
    Ok(())
}

#[test]
fn of_a_diagnostic_the_text_is_printed(rt: HostRuntime) -> Result<(), Fail> {
    let fake = FakeRuntime::new(rt.alloc(), b"", WELL)?;
    let mut desk = RealDesk::new(rt.alloc(), &fake)?;
    let text = desk.write(Out::Diagnostic, b"error\n\xff");
    let none = desk.write(Out::Diagnostic, b"\xff\n");
    assert!(rt; text == Ok(6) && none == Err(Failed));
    assert!(rt; fake.has_printed(b"error\n") && fake.has_written(b""));
    Ok(())
}

#[test]
fn a_print_that_fails_is_a_fault(rt: HostRuntime) -> Result<(), Fail> {
    let conduct = Conduct {
        prints: false,
        ..WELL
    };
    let fake = FakeRuntime::new(rt.alloc(), b"", conduct)?;
    let mut desk = RealDesk::new(rt.alloc(), &fake)?;
    assert!(rt; desk.write(Out::Diagnostic, b"error\n") == Err(Failed));
    Ok(())
}
