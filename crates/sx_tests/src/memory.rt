// The desks in memory: that there is room for their records, so that they tell.
use sqlite_items::Items;
use std::alloc::{AllocError, Global};
use std::test::Fail;
use sx_desk::{Desk, MemDesk, MemFile, MemFiles, Out, SteadyDesk};

fn one_file(alloc: Global) -> Result<MemFiles, AllocError> {
    let mut files = Items::new(alloc);
    files.push(MemFile {
        name: String::from_str(alloc, "a")?,
        bytes: Vec::from_slice(alloc, b"hello")?,
    })?;
    Ok(files)
}

#[test]
fn a_file_is_read_by_pieces(rt: HostRuntime) -> Result<(), Fail> {
    let mut desk = MemDesk::new(rt.alloc(), one_file(rt.alloc())?, 3, 9)?;
    desk.read_fails.push(2)?;
    let Ok(file) = desk.open_file("a") else {
        return Err("the file is there")?;
    };
    let mut buf = [0; 4];
    let first = desk.read(file, &mut buf);
    let listed = desk.read(file, &mut buf);
    let second = desk.read(file, &mut buf);
    let end = desk.read(file, &mut buf);
    assert!(rt; first == Ok(3) && listed.is_err() && second == Ok(2) && end == Ok(0));
    assert!(rt; buf == *b"lol\0");
    let marks = desk.marks(file).ok_or("the desk tells")?;
    assert!(rt; marks.as_slice() == [(0, 0), (3, 0), (3, 0), (5, 0)].as_slice());
    Ok(())
}

#[test]
fn an_unknown_name_is_empty(rt: HostRuntime) -> Result<(), Fail> {
    let mut desk = SteadyDesk::new(rt.alloc(), one_file(rt.alloc())?, 9, 2)?;
    let Ok(unknown) = desk.open_file("b") else {
        return Err("it never fails")?;
    };
    let Ok(known) = desk.open_file("a") else {
        return Err("it never fails")?;
    };
    let mut buf = [0; 8];
    let none = desk.read(unknown, &mut buf);
    let all = desk.read(known, &mut buf);
    let written = desk.write(Out::Result, b"abc");
    assert!(rt; none == Ok(0) && all == Ok(5) && written == Ok(2));
    assert!(rt; desk.marks(known).ok_or("the desk tells")?.len() == 1);
    assert!(rt; desk.written(Out::Result).ok_or("the desk tells")? == b"ab".as_slice());
    Ok(())
}
