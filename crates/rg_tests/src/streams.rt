//! Tests of what no clause says: that calls go well with ample memory, and what the system does
//! (docs/architecture.md).

ghost use Rattle.std.specs.Prelude.{◌<◌};

use rg_base::Memory;
use rg_io::{
    Failed, Files, MemFiles, MemSink, MemSource, Sink, Source, StdFiles, StdSink, StdSource, Taken,
    put_all, take_all,
};
use std::alloc::{AllocError, Global};
use std::io;

// The bytes of a file.
const BYTES: [u8; 5001] = [b'x'; 5001];

// A size, a name, the call that fails, and what comes of taking that file.
static FILES: [(usize, &str, u64, &str); 11] = [
    (0, "a file", 3, "whole"),
    (1, "a file", 4, "whole"),
    (4096, "a file", 4, "whole"),
    (4097, "a file", 5, "whole"),
    (5000, "a file", 9, "whole"),
    (5001, "a file", 9, "long"),
    (4097, "a file", 1, "fault"),
    (4097, "a file", 2, "fault"),
    (4097, "a file", 3, "fault"),
    (4097, "a file", 4, "fault"),
    (4097, "no file", 9, "fault"),
];

// A file of the system, and what comes of taking it.
static SYSTEM_FILES: [(&str, &str); 4] = [
    ("/dev/null", "whole"),
    ("/dev/zero", "long"),
    ("/dev/null/no file", "fault"),
    ("/dev", "fault"),
];

// Three files come, of which one replaces another and has these bytes, and a call is to fail.
fn fill_files(files: &mut MemFiles, bytes: &[u8], failing: u64) -> Result<(), Memory> {
    files.add("a file", b"its older bytes")?;
    files.add("a file", bytes)?;
    files.add("another", b"its bytes")?;
    files.fail_at(failing)
}

// What comes of taking a file of at most 5,000 bytes, which should be these.
fn taken_from<F: Files>(alloc: Global, files: &mut F, name: &str, bytes: &[u8]) -> &'static str {
    match take_all(alloc, files, name, 5000) {
        Ok(taken) => {
            if taken.bytes() == bytes {
                "whole"
            } else {
                "other bytes"
            }
        }
        Err(Taken::Long) => "long",
        Err(Taken::SourceFault) => "fault",
        Err(Taken::Memory) => "memory",
    }
}

// Whether a file is taken as its row says.
fn is_taken(alloc: Global, row: &(usize, &str, u64, &str)) -> bool {
    let (size, name, failing, want) = *row;
    let bytes = &BYTES[..size.min(5001)];
    let mut files = MemFiles::new(alloc);
    let is_filled = fill_files(&mut files, bytes, failing).is_ok();
    is_filled && taken_from(alloc, &mut files, name, bytes) == want
}

#[test]
fn a_file_is_taken_whole_or_refused(rt: HostRuntime) {
    for row in &FILES {
        assert!(rt;
            is_taken(rt.alloc(), row),
            "{} bytes, failing {}",
            row.0,
            row.2
        );
    }
    for (name, want) in &SYSTEM_FILES {
        let mut files = StdFiles::new(&rt);
        assert!(rt;
            taken_from(rt.alloc(), &mut files, name, b"") == *want,
            "{name}"
        );
    }
}

// Room behind the first byte, the call that fails, whether all is taken, and what is.
static PARTS: [(usize, u64, bool, &str); 4] = [
    (2, 4, true, "abc"),
    (1, 4, false, "ab"),
    (2, 2, false, "a"),
    (2, 1, false, ""),
];

// A sink that takes one byte at once, while a call is to fail.
fn ready_sink(sink: &mut MemSink, room: usize, failing: u64) -> Result<(), Memory> {
    sink.room(1)?;
    sink.room(room)?;
    sink.piece(1);
    sink.fail_at(failing)
}

// Whether a sink takes what its row says.
fn takes(alloc: Global, row: &(usize, u64, bool, &str)) -> bool {
    let (room, failing, all, part) = *row;
    let mut sink = MemSink::new(alloc);
    let is_ready = ready_sink(&mut sink, room, failing).is_ok();
    let is_whole = put_all(&mut sink, b"abc").is_ok();
    is_ready && is_whole == all && sink.taken() == part.as_bytes()
}

#[test]
fn a_sink_takes_all_or_a_part(rt: HostRuntime) {
    for row in &PARTS {
        assert!(rt; takes(rt.alloc(), row), "{} and failing {}", row.0, row.1);
    }
    let mut sink = StdSink::new(Broken { calls: 0 });
    for is_taken in [true, false, false, true] {
        assert!(rt; put_all(&mut sink, b"a").is_ok() == is_taken);
    }
    let mut output = StdSink::new(rt.stdout());
    assert!(rt; put_all(&mut output, b"").is_ok() && put_all(&mut output, b"\n").is_ok());
}

// What four calls of a source give, with `!` for a fault and a blank behind each.
fn give<S: Source>(source: &mut S, said: &mut Vec<u8>) -> Result<(), AllocError> {
    let mut buf = [0u8; 2];
    for _ in 0..4 {
        match source.read(&mut buf) {
            Ok(n) => said.extend_from_slice(&buf[..n])?,
            Err(Failed) => said.push(b'!')?,
        }
        said.push(b' ')?;
    }
    Ok(())
}

// Whether four calls of a source give that.
fn gives<S: Source>(alloc: Global, source: &mut S, want: &[u8]) -> bool {
    let mut said = Vec::new(alloc);
    let is_said = give(source, &mut said).is_ok();
    is_said && said.as_slice() == want
}

// The bytes `abc` come, in pieces, while a call is to fail.
fn fill_source(source: &mut MemSource, piece: usize, failing: u64) -> Result<(), Memory>
    requires { 0 < piece }
{
    source.add(b"a")?;
    source.add(b"bc")?;
    source.piece(piece);
    source.fail_at(failing)
}

// Whether a source of `abc` gives that.
fn three_give(alloc: Global, piece: usize, failing: u64, want: &[u8]) -> bool
    requires { 0 < piece }
{
    let mut source = MemSource::new(alloc);
    let is_filled = fill_source(&mut source, piece, failing).is_ok();
    is_filled && gives(alloc, &mut source, want)
}

#[test]
fn a_source_gives_its_bytes_in_pieces(rt: HostRuntime) {
    assert!(rt; three_give(rt.alloc(), 5, 2, b"ab ! c  "));
    assert!(rt; three_give(rt.alloc(), 1, 9, b"a b c  "));
    let mut source = StdSource::new(Broken { calls: 0 });
    assert!(rt; gives(rt.alloc(), &mut source, b"\0 ! \0 \0 "));
}

// A reader and writer that fails at its second call, and takes nothing at its third.
#[derive(Drop)]
struct Broken {
    calls: u8,
}

impl io::Read for Broken {
    fn read(&mut self, buf: &mut [u8]) -> io::Result<usize> {
        self.calls = self.calls.saturating_add(1);
        if self.calls == 2 {
            return Err(io::Error::from(io::ErrorKind::Other));
        }
        Ok(buf.len().min(1))
    }
}

impl io::Write for Broken {
    fn write(&mut self, buf: &[u8]) -> io::Result<usize> {
        self.calls = self.calls.saturating_add(1);
        match self.calls {
            2 => Err(io::Error::from(io::ErrorKind::Other)),
            3 => Ok(0),
            _ => Ok(buf.len().min(1)),
        }
    }

    fn flush(&mut self) -> io::Result<()> {
        Ok(())
    }
}
