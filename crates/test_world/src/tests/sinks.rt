ghost use Rattle.std.specs.Prelude.{◌<◌};

use super::only;
use crate::holding::HoldingWriter;
use crate::*;
use std::alloc::AllocError;
use std::io::{self, ErrorKind, Write};
use std::test::Fail;

// The room of a sink, the number of the put that fails, where 0 stands for none, how many bytes a
// put takes, what `put_all` answers, and what was taken.
#[derive(Drop)]
struct Put<'a> {
    room: usize,
    bad: u64,
    chunk: usize,
    answer: Result<(), Fault>,
    taken: &'a [u8],
}

const PUT: [Put<'static>; 6] = [
    Put {
        room: 10,
        bad: 0,
        chunk: 3,
        answer: Ok(()),
        taken: b"hello",
    },
    Put {
        room: 5,
        bad: 0,
        chunk: 100,
        answer: Ok(()),
        taken: b"hello",
    },
    Put {
        room: 5,
        bad: 3,
        chunk: 2,
        answer: Err(Fault),
        taken: b"hell",
    },
    Put {
        room: 4,
        bad: 0,
        chunk: 3,
        answer: Err(Fault),
        taken: b"hell",
    },
    Put {
        room: 10,
        bad: 1,
        chunk: 1,
        answer: Err(Fault),
        taken: b"",
    },
    Put {
        room: 0,
        bad: 0,
        chunk: 1,
        answer: Err(Fault),
        taken: b"",
    },
];

#[test]
fn puts_all_or_a_prefix(rt: HostRuntime) -> Result<(), Fail> {
    for row in PUT {
        assert!(rt; 0 < row.chunk && row.bad < 100);
        let bad = only(rt.alloc(), row.bad)?;
        let mut sink = MemSink::new(rt.alloc(), row.room, bad, row.chunk)?;
        let (room, bad, chunk) = (row.room, row.bad, row.chunk);
        assert_eq!(rt;
            put_all(&mut sink, b"hello"),
            row.answer,
            "{room} {bad} {chunk}"
        );
        assert_eq!(rt; sink.flush(), Ok(()));
        assert_eq!(rt; sink.taken(), row.taken, "{room} {bad} {chunk}");
    }
    Ok(())
}

// A writer that takes one byte a call, and fails where it has no room.
#[derive(Drop)]
struct OneByte {
    bytes: [u8; 8],
    length: usize,
    room: usize,
}

impl Write for OneByte {
    fn write(&mut self, buf: &[u8]) -> io::Result<usize> {
        if self.length >= self.room || self.length >= 8 {
            return Err(ErrorKind::WriteZero.into());
        }
        if buf.len() == 0 {
            return Ok(0);
        }
        self.bytes[self.length] = buf[0];
        self.length += 1;
        Ok(1)
    }

    fn flush(&mut self) -> io::Result<()> {
        Ok(())
    }
}

// How many bytes are held back at most, how many bytes the writer has room for, what is put, what
// is answered to the put and to the flush after it, and what the writer holds then.
#[derive(Drop)]
struct Written<'a> {
    held: usize,
    room: usize,
    piece: &'a [u8],
    put: Result<usize, Fault>,
    flush: Result<(), Fault>,
    bytes: &'a [u8],
}

const WRITTEN: [Written<'static>; 5] = [
    Written {
        held: 4,
        room: 8,
        piece: b"cd",
        put: Ok(2),
        flush: Ok(()),
        bytes: b"abcd",
    },
    Written {
        held: 4,
        room: 3,
        piece: b"cd",
        put: Ok(2),
        flush: Err(Fault),
        bytes: b"abc",
    },
    Written {
        held: 2,
        room: 8,
        piece: b"cd",
        put: Ok(2),
        flush: Ok(()),
        bytes: b"abcd",
    },
    Written {
        held: 2,
        room: 8,
        piece: b"cde",
        put: Ok(1),
        flush: Ok(()),
        bytes: b"abc",
    },
    Written {
        held: 2,
        room: 1,
        piece: b"cd",
        put: Err(Fault),
        flush: Err(Fault),
        bytes: b"a",
    },
];

#[test]
fn writes_what_is_held_and_then_the_piece(rt: HostRuntime) -> Result<(), Fail> {
    for row in WRITTEN {
        assert!(rt; row.held <= 8 && row.piece.len() > 0);
        let empty = OneByte {
            bytes: [0; 8],
            length: 0,
            room: row.room,
        };
        let mut writer = HoldingWriter::new(empty, row.held);
        assert_eq!(rt; writer.put(b"ab"), Ok(2));
        assert_eq!(rt; writer.put(row.piece), row.put);
        assert_eq!(rt; writer.flush(), row.flush);
        let stream = writer.into_writer();
        assert!(rt; stream.length <= 8);
        assert_eq!(rt; &stream.bytes[..stream.length], row.bytes);
    }
    Ok(())
}

#[test]
fn writes_real_streams(rt: HostRuntime) -> io::Result<()> {
    let mut output = StdSink::output(rt.stdout());
    assert_eq!(rt; put_all(&mut output, b"to standard output\n"), Ok(()));
    assert_eq!(rt; output.flush(), Ok(()));
    let mut error = StdSink::error(rt.stderr());
    assert_eq!(rt; put_all(&mut error, b"to standard error\n"), Ok(()));
    assert_eq!(rt; error.flush(), Ok(()));
    Ok(())
}
