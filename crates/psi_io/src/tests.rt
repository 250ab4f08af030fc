//! Shelves and sinks with ample memory, over real files and over narrow writers.

ghost use Rattle.std.specs.Prelude.{◌≤◌, ◌^◌};

use crate::disk_shelf::feed_front;
use crate::{
    Consumer, DiskShelf, MemoryShelf, MemorySink, OutOfMemory, Shelf, ShelfFault, Sink, SinkFault,
    StdSink, write_all,
};
use std::alloc::{AllocError, Global};
use std::fs::Permissions;
use std::io::{Read, Write};
use std::os::unix::fs::PermissionsExt;
use std::test::Fail;
use std::{fs, io};

/// A writer that takes at most `most` bytes in a write, into a text that it borrows, and marks there
/// that it is flushed, or fails where it is to be.
#[derive(Drop)]
struct Narrow<'a> {
    text: &'a mut Vec<u8>,
    most: usize,
    flushes: bool,
}

impl Write for Narrow<'_> {
    fn write(&mut self, piece: &[u8]) -> io::Result<usize> {
        self.text.write(&piece[..piece.len().min(self.most)])
    }

    fn flush(&mut self) -> io::Result<()> {
        if self.flushes {
            self.text.write_all(b"|")
        } else {
            Err(io::Error::from(io::ErrorKind::Other))
        }
    }
}

/// A consumer that keeps its pieces with their lengths, and refuses each once it has `most`.
#[derive(Drop)]
struct Pieces {
    text: Vec<u8>,
    lengths: Vec<usize>,
    most: usize,
}

impl Pieces {
    fn new(alloc: Global, most: usize) -> Pieces {
        Pieces {
            text: Vec::new(alloc),
            lengths: Vec::new(alloc),
            most,
        }
    }
}

impl Consumer for Pieces {
    ghost taken = { λ pieces. pieces.text.items };

    ghost setting = { λ pieces. tt };

    fn take(&mut self, piece: &[u8]) -> Result<(), OutOfMemory> {
        if self.lengths.len() >= self.most {
            return Err(AllocError);
        }
        self.lengths.push(piece.len())?;
        self.text.extend_from_slice(piece)
    }
}

/// A reader that gives three bytes in each of two reads, and then fails.
#[derive(Drop)]
struct Breaking {
    left: usize,
    kind: io::ErrorKind,
}

impl Read for Breaking {
    fn read(&mut self, buffer: &mut [u8]) -> io::Result<usize> {
        if self.left == 0 {
            return Err(io::Error::from(self.kind));
        }
        self.left -= 1;
        let count = buffer.len().min(3);
        buffer[..count].fill(b'a');
        Ok(count)
    }
}

/// With ample memory each call on a shelf in memory answers something else than `OutOfMemory`: the
/// third read fails by its number, the fourth since nothing is under its name.
#[test]
fn a_shelf_in_memory_gives_the_bytes_that_were_last_put(rt: HostRuntime) -> Result<(), Fail> {
    let alloc = rt.alloc();
    let mut shelf = MemoryShelf::new(alloc, vec![in alloc; 3, 9]?);
    assert_eq!(rt; shelf.put("net", b"first text"), Ok(()));
    assert_eq!(rt; shelf.put("log", b""), Ok(()));
    assert_eq!(rt; shelf.put("net", b"second"), Ok(()));
    let cases = [
        ("net", 100, Some("second")),
        ("net", 2, Some("sec")),
        ("net", 100, None),
        ("nets", 100, None),
        ("log", 0, Some("")),
        ("net", 5, Some("second")),
    ];
    for (name, most, wanted) in cases {
        let read = shelf.read(alloc, name, most);
        match (read, wanted) {
            (Ok(bytes), Some(text)) => assert_eq!(rt; bytes.as_slice(), text.as_bytes()),
            (answer, None) => assert_eq!(rt; answer.err(), Some(ShelfFault::Failed)),
            (Err(fault), Some(text)) => panic!(rt; "{fault:?} in place of {text}"),
        }
    }
    Ok(())
}

/// A sink in memory with room for ten bytes that takes four of them in a write, and whose second
/// write fails.
#[test]
fn a_piece_is_written_in_short_writes_up_to_a_fault(rt: HostRuntime) -> Result<(), Fail> {
    let alloc = rt.alloc();
    let fails = vec![in alloc; 2]?;
    let mut sink = MemorySink::new(alloc, 10, 4, fails)
        .ok()
        .ok_or("room for ten bytes")?;
    assert_eq!(rt; write_all(&mut sink, b"met 8192\n"), Err(SinkFault::Failed));
    assert_eq!(rt; sink.bytes(), b"met ".as_slice());
    assert_eq!(rt; sink.count(), 1);
    assert_eq!(rt; write_all(&mut sink, b"8192\n"), Ok(()));
    assert_eq!(rt; sink.bytes(), b"met 8192\n".as_slice());
    assert_eq!(rt; sink.count(), 1);
    assert_eq!(rt; sink.write(b"state"), Ok(1));
    assert_eq!(rt; sink.write(b""), Ok(0));
    assert_eq!(rt; sink.write(b"tate"), Err(SinkFault::Failed));
    assert_eq!(rt; sink.bytes(), b"met 8192\ns".as_slice());
    assert_eq!(rt; sink.count(), 2);
    Ok(())
}

// Letters, of which no two chunks of a read have the same: they come round after 8,209.
fn letters(alloc: Global, count: u32) -> Result<Vec<u8>, AllocError> {
    let mut text = Vec::with_capacity(alloc, count as usize)?;
    for place in 0..count {
        text.push(b'a' + (place % 8_209 % 26) as u8)?;
    }
    Ok(text)
}

// Writes letters into the file of this name, and returns them.
fn write_letters(rt: &HostRuntime, name: &str, count: u32) -> Result<Vec<u8>, Fail> {
    let text = letters(rt.alloc(), count)?;
    fs::write(rt, name, text.as_slice())?;
    Ok(text)
}

// A read that may take so many bytes gives the front of the text that is in the file.
fn gives_front(rt: &HostRuntime, name: &str, most: u32, text: &[u8]) -> bool
    requires { most ≤ 2 ^ 30 }
{
    let read = DiskShelf::new(rt).read(rt.alloc(), name, most);
    read.is_ok_and(|read| {
        read.len() == text.len().min(most as usize + 1) && text.starts_with(read.as_slice())
    })
}

/// A file longer than 16 MiB, and so than many chunks of a read and than a command reads of a network,
/// under a name with spaces at its ends.
#[test]
fn a_shelf_over_files_gives_their_bytes_up_to_a_bound(rt: HostRuntime) -> Result<(), Fail> {
    let name = " psi_io_letters.txt ";
    let text = write_letters(&rt, name, 17_000_000)?;
    let text = text.as_slice();
    assert!(rt; gives_front(&rt, name, 0, text));
    assert!(rt; gives_front(&rt, name, 8_191, text));
    assert!(rt; gives_front(&rt, name, 8_192, text));
    assert!(rt; gives_front(&rt, name, 1_048_576, text));
    assert!(rt; gives_front(&rt, name, 1_073_741_824, text));
    fs::remove_file(&rt, name)?;
    Ok(())
}

/// A file of three chunks, the last of them short, comes chunk by chunk in its order; one in memory
/// comes as one piece. A piece that the consumer refuses is `OutOfMemory`.
#[test]
fn a_file_is_handed_on_in_pieces(rt: HostRuntime) -> Result<(), Fail> {
    let alloc = rt.alloc();
    let name = "psi_io_pieces.txt";
    let text = write_letters(&rt, name, 20_000)?;
    let text = text.as_slice();
    let mut disk = DiskShelf::new(&rt);
    let mut pieces = Pieces::new(alloc, 3);
    assert_eq!(rt; disk.feed(name, 1_048_576, &mut pieces), Ok(()));
    assert_eq!(rt; pieces.text.as_slice(), text);
    assert_eq!(rt;
        pieces.lengths.as_slice(),
        [8_192usize, 8_192, 3_616].as_slice()
    );
    let mut pieces = Pieces::new(alloc, 2);
    assert_eq!(rt; disk.feed(name, 9_999, &mut pieces), Ok(()));
    assert!(rt; text.starts_with(pieces.text.as_slice()));
    assert_eq!(rt; pieces.text.len(), 10_000);
    let mut pieces = Pieces::new(alloc, 2);
    assert_eq!(rt;
        disk.feed(name, 1_048_576, &mut pieces),
        Err(ShelfFault::OutOfMemory)
    );
    assert_eq!(rt;
        disk.feed("psi_io_absent.txt", 9, &mut pieces),
        Err(ShelfFault::Failed)
    );
    fs::remove_file(&rt, name)?;
    let mut memory = MemoryShelf::new(alloc, Vec::new(alloc));
    assert_eq!(rt; memory.put(name, text), Ok(()));
    let mut pieces = Pieces::new(alloc, 1);
    assert_eq!(rt; memory.feed(name, 9_999, &mut pieces), Ok(()));
    assert!(rt; text.starts_with(pieces.text.as_slice()));
    assert_eq!(rt; pieces.text.len(), 10_000);
    assert_eq!(rt;
        memory.feed(name, 9_999, &mut pieces),
        Err(ShelfFault::OutOfMemory)
    );
    Ok(())
}

/// A reader that fails in mid-stream: the bytes before were noted on, and the answer is its fault.
#[test]
fn a_read_that_fails_in_the_middle_is_a_fault(rt: HostRuntime) -> Result<(), Fail> {
    for (kind, wanted) in [
        (io::ErrorKind::Other, ShelfFault::Failed),
        (io::ErrorKind::UnexpectedEof, ShelfFault::Failed),
        (io::ErrorKind::OutOfMemory, ShelfFault::OutOfMemory),
    ] {
        let mut bytes = Vec::new(rt.alloc());
        let mut reader = Breaking { left: 2, kind };
        assert_eq!(rt;
            feed_front(&mut reader, 100, &mut bytes).err(),
            Some(wanted)
        );
        assert_eq!(rt; bytes.as_slice(), b"aaaaaa".as_slice());
    }
    Ok(())
}

/// What can't be opened or read is a fault, and no empty file: a name that isn't there, one that is but for a space,
/// one below a file, a folder, and a file without permission, where the system refuses this to whom the test runs as. An empty file is empty.
#[test]
fn what_the_system_refuses_is_no_empty_file(rt: HostRuntime) -> Result<(), Fail> {
    let alloc = rt.alloc();
    fs::write(&rt, "psi_io_empty.txt", b"")?;
    fs::write(&rt, "psi_io_locked.txt", b"locked")?;
    fs::set_permissions(&rt, "psi_io_locked.txt", Permissions::from_mode(0))?;
    let opens = fs::open(&rt, "psi_io_locked.txt").is_ok();
    let mut shelf = DiskShelf::new(&rt);
    for (name, gives) in [
        ("psi_io_empty.txt", true),
        ("psi_io_absent.txt", false),
        (" psi_io_empty.txt", false),
        ("psi_io_empty.txt ", false),
        ("psi_io_empty.txt/below", false),
        (".", false),
        ("", false),
        ("psi_io_locked.txt", opens),
    ] {
        let fault = shelf.read(alloc, name, 9).err();
        let wanted = if gives {
            None
        } else {
            Some(ShelfFault::Failed)
        };
        assert_eq!(rt; fault, wanted, "{name}");
    }
    fs::remove_file(&rt, "psi_io_empty.txt")?;
    fs::remove_file(&rt, "psi_io_locked.txt")?;
    Ok(())
}

#[test]
fn a_sink_over_a_writer_writes_and_flushes(rt: HostRuntime) -> Result<(), Fail> {
    // A writer that takes four bytes in a write, one that takes none, and one that can't be flushed.
    let cases = [
        (4, true, Ok(()), "stat|e 3,|1\n|"),
        (0, true, Err(SinkFault::Failed), ""),
        (4, false, Err(SinkFault::Failed), "stat"),
    ];
    for (most, flushes, wanted, held) in cases {
        let mut text = Vec::new(rt.alloc());
        let writer = Narrow {
            text: &mut text,
            most,
            flushes,
        };
        let mut sink = StdSink::new(writer);
        assert_eq!(rt; write_all(&mut sink, b"state 3,1\n"), wanted);
        drop(sink);
        assert_eq!(rt; text.as_slice(), held.as_bytes());
    }
    Ok(())
}
