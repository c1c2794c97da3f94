// Bytes in, lines out, where the reader or the writer fails on the way, or takes a few bytes at a time.

use crate::calls::{DONE, begin, decide, play};
use crate::fixtures::Memory;
use base::Refusal;
use image::Sparse;
use policy::Near;
use service::serve_stream;
use std::io;
use std::io::{ErrorKind, Read, Write};
use std::test::Fail;

// Begins 1 and then decides it.
const BEGIN_AND_DECIDE: [u8; 8] = [0, 0, 1, 0x10, 0, 0, 1, 0x50];

// A reader that gives three bytes at most each time, and then its end, or an error.
#[derive(Drop)]
struct Source<'a> {
    bytes: &'a [u8],
    fails: bool,
}

impl Read for Source<'_> {
    fn read(&mut self, buf: &mut [u8]) -> io::Result<usize> {
        if self.bytes.is_empty() && self.fails {
            return Err(io::Error::from(ErrorKind::ConnectionReset));
        }
        let count = 3.min(self.bytes.len()).min(buf.len());
        buf[..count].copy_from_slice(&self.bytes[..count]);
        self.bytes = &self.bytes[count..];
        Ok(count)
    }
}

// A writer that takes one byte each time, until it is full.
#[derive(Drop)]
struct Sink<const ROOM: usize> {
    bytes: [u8; ROOM],
    taken: usize,
}

impl<const ROOM: usize> Write for Sink<ROOM> {
    fn write(&mut self, buf: &[u8]) -> io::Result<usize> {
        let (Some(byte), Some(place)) = (buf.first(), self.bytes.get_mut(self.taken)) else {
            return Err(io::Error::from(ErrorKind::StorageFull));
        };
        *place = *byte;
        self.taken = self.taken.saturating_add(1);
        Ok(1)
    }

    fn flush(&mut self) -> io::Result<()> {
        Ok(())
    }
}

// Each way in a register of its own.
#[test]
fn a_few_bytes_at_a_time(rt: HostRuntime) -> Result<(), Fail> {
    let mut memory = Memory::<1, 0, 0, 0, 0>::blank();
    let mut register = memory.register(Sparse::new(&mut []), Near);
    let mut input = Source {
        bytes: &BEGIN_AND_DECIDE,
        fails: false,
    };
    let mut output = Sink {
        bytes: [0; 18],
        taken: 0,
    };
    serve_stream(rt.alloc(), &mut register, &mut input, &mut output)?;
    assert_eq!(rt; output.bytes, *b"A0000000\nB0000000\n");
    Ok(())
}

// No call is made, and nothing is written.
#[test]
fn a_reader_that_fails(rt: HostRuntime) {
    let mut memory = Memory::<1, 0, 0, 0, 0>::blank();
    let mut register = memory.register(Sparse::new(&mut []), Near);
    let mut input = Source {
        bytes: &BEGIN_AND_DECIDE,
        fails: true,
    };
    let mut output = Sink {
        bytes: [0; 18],
        taken: 0,
    };
    let outcome = serve_stream(rt.alloc(), &mut register, &mut input, &mut output);
    assert_eq!(rt;
        outcome.map_err(|e| e.kind()),
        Err(ErrorKind::ConnectionReset)
    );
    assert_eq!(rt; output.taken, 0);
    play(&rt, &mut register, &[(begin(1), DONE)]);
}

// All calls were made by then, and the first answer is told.
#[test]
fn a_writer_that_fails(rt: HostRuntime) {
    let mut memory = Memory::<1, 0, 0, 0, 0>::blank();
    let mut register = memory.register(Sparse::new(&mut []), Near);
    let mut input = Source {
        bytes: &BEGIN_AND_DECIDE,
        fails: false,
    };
    let mut output = Sink {
        bytes: [0; 9],
        taken: 0,
    };
    let outcome = serve_stream(rt.alloc(), &mut register, &mut input, &mut output);
    assert_eq!(rt; outcome.map_err(|e| e.kind()), Err(ErrorKind::StorageFull));
    assert_eq!(rt; output.bytes, *b"A0000000\n");
    play(
        &rt,
        &mut register,
        &[(decide(1), Err(Refusal::AlreadyDecided))],
    );
}
