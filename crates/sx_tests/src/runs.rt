// The whole program over the real desk, at a runtime that moves few bytes and fails.
use crate::fake::{Conduct, FakeRuntime, WELL};
use std::alloc::{AllocError, Global};
use std::test::Fail;
use sx_desk::RealDesk;
use sx_reading::Status;
use sx_top::top;

// More than two buffers of the program.
const LINES: u32 = 9_000;

// A document that is its own copy.
fn document(alloc: Global) -> Result<Vec<u8>, AllocError> {
    let mut text = Vec::from_slice(alloc, b"(a\n")?;
    for _ in 0..LINES {
        text.extend_from_slice(b"(b\n-some text\n)b\n")?;
    }
    text.extend_from_slice(b")a\nC\n")?;
    Ok(text)
}

// The status of a copy of the runtime's file.
fn copy(alloc: Global, fake: &FakeRuntime) -> Result<Status, AllocError> {
    let mut words = Vec::new(alloc);
    words.push(String::from_str(alloc, "copy")?)?;
    words.push(String::from_str(alloc, "doc")?)?;
    let mut desk = RealDesk::new(alloc, fake)?;
    Ok(top(alloc, &words, &mut desk))
}

#[test]
fn few_bytes_at_once_make_the_same_copy(rt: HostRuntime) -> Result<(), Fail> {
    let alloc = rt.alloc();
    let document = document(alloc)?;
    for (read_piece, write_piece) in [
        (usize::MAX, usize::MAX),
        (1_000, usize::MAX),
        (usize::MAX, 7),
        (1, 1),
    ] {
        let conduct = Conduct {
            read_piece,
            write_piece,
            ..WELL
        };
        let fake = FakeRuntime::new(alloc, document.as_slice(), conduct)?;
        assert!(rt; copy(alloc, &fake)? == Status::Ok);
        assert!(rt; fake.has_written(document.as_slice()) && fake.has_printed(b""));
    }
    Ok(())
}

#[test]
fn a_read_that_fails_ends_the_copy(rt: HostRuntime) -> Result<(), Fail> {
    let alloc = rt.alloc();
    let document = document(alloc)?;
    for failing_read in [1, 2, 3] {
        let conduct = Conduct {
            failing_read,
            ..WELL
        };
        let fake = FakeRuntime::new(alloc, document.as_slice(), conduct)?;
        assert!(rt; copy(alloc, &fake)? == Status::ReadFault);
        assert!(rt;
            fake.has_written_front(document.as_slice()) && fake.has_printed(b"error read\n")
        );
    }
    Ok(())
}

#[test]
fn a_write_that_fails_ends_the_copy(rt: HostRuntime) -> Result<(), Fail> {
    let alloc = rt.alloc();
    let document = document(alloc)?;
    for failing_write in [1, 2, 3] {
        let conduct = Conduct {
            write_piece: 50_000,
            failing_write,
            ..WELL
        };
        let fake = FakeRuntime::new(alloc, document.as_slice(), conduct)?;
        assert!(rt; copy(alloc, &fake)? == Status::WriteFault);
        assert!(rt;
            fake.has_written_front(document.as_slice()) && fake.has_printed(b"error write\n")
        );
    }
    Ok(())
}
