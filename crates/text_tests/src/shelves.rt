//! Shelves and sinks, in memory and over the system.

use agm_bits::Memory;
use agm_shelf::{
    FilesShelf, MemoryShelf, MemorySink, PutEnd, ReadEnd, Shelf, Sink, StdSink, write_whole,
};
use std::alloc::Global;
use std::cell::Cell;
use std::fmt::Display;
use std::fs;
use std::io::{self, ErrorKind};
use std::test::Fail;

/// Which call fails while a text is written over an older one, how writing ends, what is held then, and the length of what is read.
type Written = (
    usize,
    Result<(), PutEnd>,
    &'static [u8],
    Result<usize, ReadEnd>,
);

const WRITTEN: [Written; 5] = [
    (0, Err(PutEnd::Failed), b"old", Ok(3)),
    (1, Err(PutEnd::Failed), b"", Ok(0)),
    (2, Err(PutEnd::Failed), b"new text", Ok(8)),
    (3, Ok(()), b"new text", Err(ReadEnd::Failed)),
    (4, Ok(()), b"new text", Ok(8)),
];

// The length of a text that is read, or why it isn't read.
fn length_read(
    alloc: Global,
    shelf: &mut MemoryShelf,
    name: &str,
    limit: usize,
) -> Result<usize, ReadEnd> {
    match shelf.read(alloc, name, limit) {
        Ok(text) => Ok(text.len()),
        Err(end) => Err(end),
    }
}

// Whether a row of `WRITTEN` tells what happens.
fn is_written(alloc: Global, row: Written) -> Result<bool, Memory> {
    let (call, written, held, read) = row;
    let mut shelf = MemoryShelf::new(alloc);
    shelf.hold("out", b"old")?;
    shelf.fail(call)?;
    let answer = write_whole(alloc, &mut shelf, "out", b"new text");
    let is_held = shelf.held("out") == Some(held);
    let length = length_read(alloc, &mut shelf, "out", 8);
    Ok(answer == written && is_held && length == read)
}

#[test]
fn a_shelf_in_memory_fails_where_it_was_told_to(rt: HostRuntime) -> Result<(), Fail> {
    for row in WRITTEN {
        assert!(rt; is_written(rt.alloc(), row)?, "call {}", row.0);
    }
    Ok(())
}

/// A name, the limit of a read, and what is read.
const READ: [(&str, usize, Result<&[u8], ReadEnd>); 6] = [
    ("text", 3, Ok(b"abc")),
    ("text", 2, Err(ReadEnd::TooLong { seen: 3 })),
    ("zeros", 3, Ok(&[0, 0, 0])),
    ("zeros", 2, Err(ReadEnd::TooLong { seen: 3 })),
    ("huge", 2, Err(ReadEnd::TooLong { seen: 3 })),
    ("none", 2, Err(ReadEnd::Failed)),
];

fn three_texts(alloc: Global) -> Result<MemoryShelf, Memory> {
    let mut shelf = MemoryShelf::new(alloc);
    shelf.hold("text", b"abc")?;
    shelf.hold_blank("zeros", 3)?;
    shelf.hold_blank("huge", usize::MAX)?;
    Ok(shelf)
}

fn reads(
    alloc: Global,
    shelf: &mut MemoryShelf,
    name: &str,
    limit: usize,
    wanted: Result<&[u8], ReadEnd>,
) -> bool {
    match shelf.read(alloc, name, limit) {
        Ok(text) => wanted == Ok(text.as_slice()),
        Err(end) => wanted == Err(end),
    }
}

#[test]
fn a_shelf_in_memory_reads_up_to_a_limit(rt: HostRuntime) -> Result<(), Fail> {
    let mut shelf = three_texts(rt.alloc())?;
    for (name, limit, wanted) in READ {
        assert!(rt;
            reads(rt.alloc(), &mut shelf, name, limit, wanted),
            "{name} {limit}"
        );
    }
    assert!(rt; shelf.held("text").is_some());
    assert!(rt; shelf.held("zeros").is_none());
    assert!(rt; shelf.held("none").is_none());
    Ok(())
}

// Whether a sink whose given call fails takes these bytes of two texts.
fn takes(alloc: Global, call: usize, taken: &[u8]) -> Result<bool, Memory> {
    let mut sink = MemorySink::new(alloc);
    sink.fail(call)?;
    let first = sink.put(b"a").is_err();
    let second = sink.put(b"b").is_err();
    Ok(first == (call == 0) && second == (call == 1) && sink.taken() == taken)
}

#[test]
fn a_sink_in_memory_fails_where_it_was_told_to(rt: HostRuntime) -> Result<(), Fail> {
    assert!(rt; takes(rt.alloc(), 0, b"b")?);
    assert!(rt; takes(rt.alloc(), 1, b"a")?);
    assert!(rt; takes(rt.alloc(), 2, b"ab")?);
    Ok(())
}

#[test]
fn files_are_written_and_read(rt: HostRuntime) -> Result<(), Fail> {
    let alloc = rt.alloc();
    let mut shelf = FilesShelf::new(rt.clone()?);
    let text = vec![in alloc; b'a'; 100_000]?;
    let written = write_whole(alloc, &mut shelf, "written.txt", text.as_slice());
    assert_eq!(rt; written, Ok(()));
    match shelf.read(alloc, "written.txt", 100_000) {
        Ok(read) => assert_eq!(rt; read.as_slice(), text.as_slice()),
        Err(_) => return Err(Fail::from("the file wasn't read")),
    }
    let too_long = shelf.read(alloc, "written.txt", 99_999).err();
    assert_eq!(rt; too_long, Some(ReadEnd::TooLong { seen: 100_000 }));
    fs::remove_file(&rt, "written.txt")?;
    let missing = shelf.read(alloc, "written.txt", 1).err();
    assert_eq!(rt; missing, Some(ReadEnd::Failed));
    let nowhere = write_whole(alloc, &mut shelf, "no/such/folder", b"");
    assert_eq!(rt; nowhere, Err(PutEnd::Failed));
    Ok(())
}

// An output that takes nothing.
#[derive(Drop)]
struct Closed;

impl Print for Closed {
    fn print<D: Display + Drop>(&self, _: D) -> io::Result<()> {
        Err(io::Error::from(ErrorKind::BrokenPipe))
    }

    fn println<D: Display + Drop>(&self, _: D) -> io::Result<()> {
        Err(io::Error::from(ErrorKind::BrokenPipe))
    }

    fn write_all(&self, _: &[u8]) -> io::Result<()> {
        Err(io::Error::from(ErrorKind::BrokenPipe))
    }
}

// An output that counts the bytes that it takes.
#[derive(Drop)]
struct Counted {
    bytes: Cell<usize>,
}

impl Print for Counted {
    fn print<D: Display + Drop>(&self, _: D) -> io::Result<()> {
        Err(io::Error::from(ErrorKind::Unsupported))
    }

    fn println<D: Display + Drop>(&self, _: D) -> io::Result<()> {
        Err(io::Error::from(ErrorKind::Unsupported))
    }

    fn write_all(&self, bytes: &[u8]) -> io::Result<()> {
        self.bytes.set(self.bytes.get().saturating_add(bytes.len()));
        Ok(())
    }
}

#[test]
fn the_standard_output_is_printed_to(rt: HostRuntime) -> Result<(), Fail> {
    let counted = Counted {
        bytes: Cell::new(0),
    };
    let taken = StdSink::new(&counted).put(b"counted\n");
    assert_eq!(rt; taken, Ok(()));
    assert_eq!(rt; counted.bytes.get(), 8);
    let printed = StdSink::new(rt.clone()?).put(b"printed\n");
    assert_eq!(rt; printed, Ok(()));
    let refused = StdSink::new(Closed).put(b"refused\n");
    assert_eq!(rt; refused, Err(PutEnd::Failed));
    Ok(())
}
