// The reading loop: before each read all that can be written is written.
ghost use Rattle.std.specs.Prelude.{◌≡◌, ◌≢◌, ◌<◌, ◌≤◌, ◌++◌, [], List, ℕ, Bool};
ghost use Rattle.std.specs.Prelude.{false, IsTrue, OnOk, length};
ghost use Rattle.sx_desk.specs.Desk.{Seen};
ghost use Rattle.sx_desk.specs.declared.desk.Out.TheVariants as out;
ghost use Rattle.sx_reading.specs.Frame.{Frame};
ghost use Rattle.sx_reading.specs.Transforming.{WrittenFor, OutcomeFor, TransformsFor, LeavesFor, most_read};
ghost use Rattle.sx_reading.specs.Turn.{FedMoreFor, FlushesFor, TurnsFor};
ghost use Rattle.sx_reading.specs.declared.status.Status.TheVariants as status;

use crate::send::write_all;
use crate::{Consumer, Input, Status};
use std::alloc::{AllocError, Global};
use sx_desk::{Desk, Out};
use sx_limits::{DocFault, Which};

/// The most bytes that one read takes.
const PIECE: usize = 65_536;

/// The most reads behind which bytes have no outcome yet: each takes a byte at least.
const MOST_READS: u64 = 1 << 40;

// Feeds the consumer; no bytes say that the input has ended.
fn advance<C: Consumer>(consumer: &mut C, piece: &[u8]) -> Result<(), AllocError>
    ensures fed { OnOk result (FedMoreFor (C.stands consumer.old) (C.stands consumer.new) piece.now) }
    ensures keeps { C.keeps consumer.old consumer.new }
{
    if piece.is_empty() {
        consumer.finish()
    } else {
        consumer.feed(piece)
    }
}

// Writes all that can be written, and says how the loop ends where it does.
fn flush<D: Desk, C: Consumer>(desk: &mut D, consumer: &mut C) -> Option<Status>
    ensures frame { (file : ℕ) → Frame file out.Result (D.seen desk.old) (D.seen desk.new) }
    ensures after { FlushesFor (C.stands consumer.old) (C.stands consumer.new) (D.seen desk.old)
        (D.seen desk.new) result }
    ensures keeps { C.keeps consumer.old consumer.new }
{
    match write_all(desk, Out::Result, consumer.output()) {
        Ok(()) => {}
        Err(_) => return Some(Status::WriteFault),
    }
    consumer.clear_output();
    match consumer.outcome() {
        Some(outcome) => Some(outcome.status()),
        None => None,
    }
}

// Reads once, and writes all that can be written then.
fn take_turn<D: Desk, C: Consumer>(
    file: u32,
    desk: &mut D,
    consumer: &mut C,
    buffer: &mut [u8],
) -> Option<Status>
    requires room { 0 < length buffer.old }
    requires small { length buffer.old ≤ most_read }
    requires given { file < length (D.seen desk.old).opened }
    ensures frame { Frame file out.Result (D.seen desk.old) (D.seen desk.new) }
    ensures after { TurnsFor (C.stands consumer.old) (C.stands consumer.new) file (D.seen desk.old)
        (D.seen desk.new) result }
    ensures keeps { C.keeps consumer.old consumer.new }
{
    let count = match desk.read(file, buffer) {
        Ok(count) => count,
        Err(_) => return Some(Status::ReadFault),
    };
    match advance(consumer, &buffer[..count]) {
        Ok(()) => {}
        Err(_) => return Some(Status::OutOfMemory),
    }
    flush(desk, consumer)
}

// Goes on until the bytes have an outcome or the desk fails.
fn run<D: Desk, C: Consumer>(file: u32, desk: &mut D, consumer: &mut C, buffer: &mut [u8]) -> Status
    requires room { 0 < length buffer.old }
    requires small { length buffer.old ≤ most_read }
    requires given { file < length (D.seen desk.old).opened }
    requires untouched { IsTrue (D.seen desk.old).told → (D.seen desk.old).taken file ≡ 0 }
    ensures frame { Frame file out.Result (D.seen desk.old) (D.seen desk.new) }
    ensures runs { TransformsFor (C.stands consumer.old) file (D.seen desk.old) (D.seen desk.new) result }
    ensures left { LeavesFor (C.stands consumer.old) (C.stands consumer.new) file (D.seen desk.old)
        (D.seen desk.new) result }
    ensures keeps { C.keeps consumer.old consumer.new }
{
    match flush(desk, consumer) {
        Some(status) => return status,
        None => {}
    }
    let mut count: u64 = 0;
    'reads: while count <= MOST_READS {
        match take_turn(file, desk, consumer, buffer) {
            Some(status) => return status,
            None => count += 1,
        }
    }
    Status::Limit {
        input: Input::Document,
        fault: DocFault {
            which: Which::Bytes,
            line: 0,
        },
    }
}

/// Runs a consumer on an opened file of which nothing was taken: feeds it the bytes as they are read, and writes to
/// the result, before each read, all that it gives. A read takes at most 65,536 bytes. Unless it answers `OutOfMemory`, the
/// consumer stands for the bytes that were taken of the file.
pub fn transfer<D: Desk, C: Consumer>(
    alloc: Global,
    file: u32,
    desk: &mut D,
    consumer: &mut C,
) -> Status
    requires given { file < length (D.seen desk.old).opened }
    requires untouched { IsTrue (D.seen desk.old).told → (D.seen desk.old).taken file ≡ 0 }
    ensures frame { Frame file out.Result (D.seen desk.old) (D.seen desk.new) }
    ensures runs { TransformsFor (C.stands consumer.old) file (D.seen desk.old) (D.seen desk.new) result }
    ensures left { LeavesFor (C.stands consumer.old) (C.stands consumer.new) file (D.seen desk.old)
        (D.seen desk.new) result }
    ensures keeps { C.keeps consumer.old consumer.new }
{
    match vec![in alloc; 0u8; PIECE] {
        Ok(mut buffer) => run(file, desk, consumer, &mut buffer),
        Err(_) => Status::OutOfMemory,
    }
}
