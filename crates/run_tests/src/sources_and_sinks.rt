//! Sources and sinks in memory and over real input and output, and those that fail.
use ax_io::{
    Failed, MemSink, MemSource, ReadError, Sink, Source, StdSink, StdSource, put_all, read_up_to,
};
use ax_types::List;
use std::alloc::{AllocError, Global};
use std::io::{self, Error, ErrorKind, Read, Write};
use std::test::Fail;

fn bytes_of(alloc: Global, text: &[u8]) -> Result<List<u8>, AllocError> {
    Ok(List::from_vec(text.to_vec(alloc)?))
}

fn letters(alloc: Global, length: usize) -> Result<List<u8>, AllocError> {
    Ok(List::from_vec(vec![in alloc; b'x'; length]?))
}

#[test]
fn a_read_that_fails_moves_nothing(rt: HostRuntime) -> Result<(), Fail> {
    let failing = List::from_vec(vec![in rt.alloc(); 2, 5]?);
    let mut source = MemSource::new(bytes_of(rt.alloc(), b"abcdefg")?, failing);
    let mut buf = [b'-'; 3];
    assert_eq!(rt; source.read(&mut buf), Ok(3));
    assert_eq!(rt; buf, *b"abc");
    assert_eq!(rt; source.read(&mut buf), Err(Failed));
    assert_eq!(rt; buf, *b"abc");
    assert_eq!(rt; source.read(&mut buf), Ok(3));
    assert_eq!(rt; buf, *b"def");
    assert_eq!(rt; source.read(&mut buf), Ok(1));
    assert_eq!(rt; buf, *b"gef");
    assert_eq!(rt; source.read(&mut buf), Err(Failed));
    assert_eq!(rt; source.read(&mut buf), Ok(0));
    assert_eq!(rt; source.read(&mut buf), Ok(0));
    Ok(())
}

#[test]
fn a_put_that_fails_keeps_its_number(rt: HostRuntime) -> Result<(), Fail> {
    let failing = List::from_vec(vec![in rt.alloc(); (2, 2), (4, 9), (5, 0)]?);
    let mut sink = MemSink::new(rt.alloc(), failing);
    assert_eq!(rt; sink.put(b"ab"), Ok(()));
    assert_eq!(rt; sink.put(b"cdef"), Err(Failed));
    assert_eq!(rt; sink.put(b"gh"), Ok(()));
    assert_eq!(rt; sink.put(b"ij"), Err(Failed));
    assert_eq!(rt; sink.put(b"kl"), Err(Failed));
    assert_eq!(rt; sink.put(b""), Ok(()));
    assert_eq!(rt; sink.taken().as_slice(), b"abcdghij".as_slice());
    Ok(())
}

fn read_text<S: Source>(alloc: Global, source: &mut S, most: usize) -> Result<List<u8>, ReadError> {
    read_up_to(alloc, source, most)
}

#[test]
fn a_source_is_read_to_its_end_or_its_limit(rt: HostRuntime) -> Result<(), Fail> {
    for (length, most, want) in [
        (0, 9, 0),
        (9, 0, 0),
        (200_000, 200_001, 200_000),
        (200_000, 200_000, 200_000),
        (200_000, 199_999, 199_999),
        (65_536, 65_537, 65_536),
    ] {
        let bytes = letters(rt.alloc(), length)?;
        let mut source = MemSource::new(bytes, List::new(rt.alloc()));
        let read = read_text(rt.alloc(), &mut source, most)?;
        assert_eq!(rt; read.len(), want, "{length} bytes, at most {most}");
    }
    Ok(())
}

#[test]
fn a_fault_is_no_end(rt: HostRuntime) -> Result<(), Fail> {
    let bytes = letters(rt.alloc(), 70_000)?;
    let failing = List::from_vec(vec![in rt.alloc(); 2]?);
    let mut source = MemSource::new(bytes, failing);
    let first = read_text(rt.alloc(), &mut source, 70_001);
    assert_eq!(rt; first.err(), Some(ReadError::Failed));
    assert_eq!(rt; read_text(rt.alloc(), &mut source, 70_001)?.len(), 4_464);
    Ok(())
}

fn put_texts<K: Sink>(sink: &mut K, texts: &[&str]) -> Result<(), Failed> {
    put_all(sink, texts)
}

#[test]
fn pieces_go_up_to_the_one_that_fails(rt: HostRuntime) -> Result<(), Fail> {
    let failing = List::from_vec(vec![in rt.alloc(); (5, 2)]?);
    let mut sink = MemSink::new(rt.alloc(), failing);
    assert_eq!(rt; put_texts(&mut sink, &["one ", "two ", "three "]), Ok(()));
    assert_eq!(rt;
        put_texts(&mut sink, &["four ", "five ", "six "]),
        Err(Failed)
    );
    assert_eq!(rt;
        sink.taken().as_slice(),
        b"one two three four fi".as_slice()
    );
    Ok(())
}

/// Gives one byte a read, after an interruption each time, and fails once none is left.
#[derive(Drop)]
struct Halting {
    left: u8,
    interrupts: bool,
}

impl Read for Halting {
    fn read(&mut self, buf: &mut [u8]) -> io::Result<usize> {
        self.interrupts = !self.interrupts;
        if self.interrupts {
            return Err(Error::new(ErrorKind::Interrupted, "a signal came"));
        }
        if self.left == 0 {
            return Err(Error::other("no more"));
        }
        if buf.is_empty() {
            return Ok(0);
        }
        self.left -= 1;
        buf[0] = b'a';
        Ok(1)
    }
}

#[test]
fn real_input_counts_its_errors(rt: HostRuntime) -> Result<(), Fail> {
    let mut source = StdSource::new(Halting {
        left: 2,
        interrupts: false,
    });
    let mut buf = [b'-'; 4];
    assert_eq!(rt; source.read(&mut buf), Ok(1));
    assert_eq!(rt; source.read(&mut buf), Ok(1));
    assert_eq!(rt; buf, *b"a---");
    assert_eq!(rt; source.read(&mut buf), Err(Failed));
    Ok(())
}

/// Takes at most two bytes a write, and none once it is full.
#[derive(Drop)]
struct Narrow {
    room: usize,
    flushes: bool,
}

impl Write for Narrow {
    fn write(&mut self, buf: &[u8]) -> io::Result<usize> {
        let n = buf.len().min(self.room).min(2);
        self.room -= n;
        Ok(n)
    }

    fn flush(&mut self) -> io::Result<()> {
        if self.flushes {
            Ok(())
        } else {
            Err(Error::other("no room behind"))
        }
    }
}

#[test]
fn real_output_that_takes_nothing_is_a_fault(rt: HostRuntime) -> Result<(), Fail> {
    let mut sink = StdSink::new(Narrow {
        room: 7,
        flushes: true,
    });
    assert_eq!(rt; put_texts(&mut sink, &["abc", "", "def"]), Ok(()));
    assert_eq!(rt; sink.put(b"gh"), Err(Failed));
    let mut broken = StdSink::new(Narrow {
        room: 7,
        flushes: false,
    });
    assert_eq!(rt; broken.put(b"abc"), Err(Failed));
    Ok(())
}
