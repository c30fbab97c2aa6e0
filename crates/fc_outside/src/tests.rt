use super::*;
use crate::again::{read_again, write_again};
use sqlite_items::Items;
use std::alloc::{AllocError, Global};
use std::fs;
use std::io::{Error, ErrorKind, Read, Write};
use std::test::Fail;

fn some_files(alloc: Global) -> Result<Files, AllocError> {
    let mut files = Items::new(alloc);
    files.push(MemFile::new(alloc, "a.c", b"hello")?)?;
    files.push(MemFile::new(alloc, "empty.c", b"")?)?;
    files.push(MemFile::new(alloc, "a.c", b"other")?)?;
    Ok(files)
}

/// Whether reading gives just these bytes, or a fault where none are wanted.
fn reads<F: Shelf>(
    alloc: Global,
    shelf: &mut F,
    name: &str,
    limit: u16,
    want: Option<&str>,
) -> Result<bool, AllocError> {
    match read_all(alloc, shelf, name, usize::from(limit)) {
        Ok(bytes) => Ok(want.is_some_and(|text| bytes.as_slice() == text.as_bytes())),
        Err(ReadError::Fault) => Ok(want.is_none()),
        Err(ReadError::Memory) => Err(AllocError),
    }
}

/// The same of `some_files`, at most `above_one + 1` bytes at a time, where call `failing` fails.
fn memory_reads(
    alloc: Global,
    above_one: u16,
    failing: u64,
    name: &str,
    limit: u16,
    want: Option<&str>,
) -> Result<bool, AllocError> {
    let fails = Items::from_slice(alloc, &[failing])?;
    let most = usize::from(above_one) + 1;
    let mut shelf = MemShelf::new(alloc, some_files(alloc)?, most, fails)?;
    reads(alloc, &mut shelf, name, limit, want)
}

#[test]
fn a_shelf_gives_the_first_file_of_a_name(rt: HostRuntime) -> Result<(), Fail> {
    let cases = [
        ("a.c", 100, "hello"),
        ("a.c", 5, "hello"),
        ("a.c", 4, "hello"),
        ("a.c", 3, "hell"),
        ("a.c", 0, "h"),
        ("empty.c", 10, ""),
        ("missing.c", 10, ""),
    ];
    for (name, limit, want) in cases {
        for above_one in [0, 1, 4999] {
            let held = memory_reads(rt.alloc(), above_one, 100, name, limit, Some(want))?;
            assert!(rt; held, "{name} {limit} {above_one}");
        }
    }
    // One beginning, five reads of one byte, and one that finds the end.
    for failing in 1..=7 {
        let held = memory_reads(rt.alloc(), 0, failing, "a.c", 100, None)?;
        assert!(rt; held, "call {failing}");
    }
    let held = memory_reads(rt.alloc(), 0, 8, "a.c", 100, Some("hello"))?;
    assert!(rt; held, "no call fails");
    Ok(())
}

/// Whether writing "hello" and then nothing, byte by byte, leaves this in a sink with so much room, where call
/// `failing` fails, and is answered Ok just where all of it is there.
fn memory_holds(alloc: Global, failing: u64, room: usize, want: &str) -> Result<bool, AllocError> {
    let fails = Items::from_slice(alloc, &[failing])?;
    let mut sink = MemSink::new(alloc, room, 1, fails)?;
    let is_whole = write_all(&mut sink, b"hello").is_ok();
    let is_nothing_written = write_all(&mut sink, b"").is_ok();
    let is_held = sink.held() == want.as_bytes();
    Ok(is_held && is_nothing_written && is_whole == (want == "hello"))
}

#[test]
fn a_sink_holds_what_came_before_a_fault(rt: HostRuntime) -> Result<(), Fail> {
    let cases = [
        (1, 10, ""),
        (2, 10, "h"),
        (3, 10, "he"),
        (4, 10, "hel"),
        (5, 10, "hell"),
        (6, 10, "hello"),
        (6, 5, "hello"),
        (6, 3, "hel"),
        (6, 0, ""),
    ];
    for (failing, room, want) in cases {
        let held = memory_holds(rt.alloc(), failing, room, want)?;
        assert!(rt; held, "call {failing}, room {room}");
    }
    Ok(())
}

/// What four reads answer, of which the second fails, and what then stands in the buffer.
fn single_reads(alloc: Global) -> Result<([Got; 4], [u8; 6]), AllocError> {
    let fails = Items::from_slice(alloc, &[3])?;
    let mut shelf = MemShelf::new(alloc, some_files(alloc)?, 4, fails)?;
    let mut buffer = [0; 6];
    if shelf.begin("a.c") == Begun::Failed {
        return Ok(([Got::Failed; 4], buffer));
    }
    let answers = [
        shelf.read(&mut buffer),
        shelf.read(&mut buffer),
        shelf.read(&mut buffer),
        shelf.read(&mut buffer),
    ];
    Ok((answers, buffer))
}

/// Whether a beginning that fails leaves the file that was begun before.
fn goes_on_after_failed_begin(alloc: Global) -> Result<bool, AllocError> {
    let fails = Items::from_slice(alloc, &[2])?;
    let mut shelf = MemShelf::new(alloc, some_files(alloc)?, 4, fails)?;
    let mut buffer = [0; 6];
    Ok(
        shelf.begin("a.c") == Begun::Ready
            && shelf.begin("empty.c") == Begun::Failed
            && shelf.read(&mut buffer) == Got::Bytes(4),
    )
}

/// A stream that is interrupted so many times and then fails, or takes and gives one byte.
#[derive(Drop)]
struct Interrupted {
    left: u32,
    fails: bool,
}

impl Interrupted {
    fn turn(&mut self) -> std::io::Result<usize> {
        if self.left > 0 {
            self.left -= 1;
            return Err(Error::from(ErrorKind::Interrupted));
        }
        if self.fails {
            return Err(Error::from(ErrorKind::WouldBlock));
        }
        Ok(1)
    }
}

impl Read for Interrupted {
    fn read(&mut self, buf: &mut [u8]) -> std::io::Result<usize> {
        Ok(self.turn()?.min(buf.len()))
    }
}

impl Write for Interrupted {
    fn write(&mut self, buf: &[u8]) -> std::io::Result<usize> {
        Ok(self.turn()?.min(buf.len()))
    }

    fn flush(&mut self) -> std::io::Result<()> {
        Ok(())
    }
}

#[test]
fn interrupted_calls_are_tried_again(rt: HostRuntime) {
    let cases = [
        (0, false, Some(1)),
        (1, false, Some(1)),
        (999, false, Some(1)),
        (1000, false, None),
        (0, true, None),
        (3, true, None),
    ];
    for (left, fails, want) in cases {
        let got = read_again(&mut Interrupted { left, fails }, &mut [0; 2]);
        let put = write_again(&mut Interrupted { left, fails }, b"ab");
        assert!(rt; got == want && put == want, "{left} {fails}");
    }
}

/// What four writes answer, of which the second fails, and the last finds no room.
fn single_writes(alloc: Global) -> Result<[Put; 4], AllocError> {
    let fails = Items::from_slice(alloc, &[2])?;
    let mut sink = MemSink::new(alloc, 6, 4, fails)?;
    Ok([
        sink.write(b"hello"),
        sink.write(b"o"),
        sink.write(b"o, you"),
        sink.write(b" you"),
    ])
}

#[test]
fn single_calls_answer_so(rt: HostRuntime) -> Result<(), Fail> {
    let alloc = rt.alloc();
    let file = MemFile::new(alloc, "b.c", b"xy")?;
    assert!(rt; file.name() == "b.c" && file.bytes() == b"xy".as_slice());
    let (answers, buffer) = single_reads(alloc)?;
    assert!(rt; answers == [Got::Bytes(4), Got::Failed, Got::Bytes(1), Got::End]);
    assert!(rt; buffer == *b"oell\0\0");
    assert!(rt; goes_on_after_failed_begin(alloc)?);
    let answers = single_writes(alloc)?;
    assert!(rt; answers == [Put::Wrote(4), Put::Failed, Put::Wrote(2), Put::Failed]);
    Ok(())
}

/// Whether a file of five bytes gives them, and then its end each time.
fn ends_twice<F: Shelf>(shelf: &mut F, name: &str) -> bool {
    let mut buffer = [0; 9];
    shelf.begin(name) == Begun::Ready
        && shelf.read(&mut buffer) == Got::Bytes(5)
        && shelf.read(&mut buffer) == Got::End
        && shelf.read(&mut buffer) == Got::End
}

#[test]
fn files_of_the_system_are_read(rt: HostRuntime) -> Result<(), Fail> {
    fs::write(&rt, "a.txt", "hello")?;
    let mut shelf = FileShelf::new(&rt);
    let held = reads(rt.alloc(), &mut shelf, "a.txt", 100, Some("hello"))?;
    assert!(rt; held && ends_twice(&mut shelf, "a.txt"), "a file");
    let held = reads(rt.alloc(), &mut shelf, "missing.txt", 100, None)?;
    assert!(rt; held, "a missing file");
    Ok(())
}

#[test]
fn writers_take_bytes(rt: HostRuntime) -> Result<(), Fail> {
    let mut sink = OutSink::new(Vec::new(rt.alloc()));
    let is_whole = write_all(&mut sink, b"hello").is_ok();
    let held = sink.writer.as_slice() == b"hello".as_slice();
    assert!(rt; is_whole && held);

    // A full writer takes nothing.
    let mut room = [0; 3];
    let mut sink = OutSink::new(room.as_mut_slice());
    let is_whole = write_all(&mut sink, b"hello").is_ok();
    assert!(rt; !is_whole && room == *b"hel");
    Ok(())
}
