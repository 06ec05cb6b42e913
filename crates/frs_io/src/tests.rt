use crate::{
    Failed, MemSink, MemSource, PIECE, ReadError, Sink, Source, StdSink, StdSource, SteadySink,
    SteadySource, WriteError, hand_on, read_to_limit, write_all,
};
use std::alloc::{AllocError, Global};
use std::io::{self, ErrorKind, Read, Write};
use std::test::Fail;

/// This many bytes, no two neighbours alike.
fn pattern(alloc: Global, count: usize) -> Result<Vec<u8>, AllocError> {
    let mut bytes = Vec::new(alloc);
    for at in 0..count {
        bytes.push((at % 251) as u8)?;
    }
    Ok(bytes)
}

/// A text of this many letters.
fn letters(alloc: Global, count: usize) -> Result<String, AllocError> {
    let mut text = String::new(alloc);
    for _ in 0..count {
        text.push('x')?;
    }
    Ok(text)
}

#[test]
fn reads_a_hundred_thousand_bytes_to_the_end(rt: HostRuntime) -> Result<(), Fail> {
    let alloc = rt.alloc();
    let mut source = SteadySource::new(pattern(alloc, 100_000)?);
    let found = read_to_limit(alloc, &mut source, 1 << 20)?;
    assert_eq!(rt; found.as_slice(), pattern(alloc, 100_000)?.as_slice());
    assert_eq!(rt; source.read(&mut [0; 8])?, 0);
    Ok(())
}

#[test]
fn reads_up_to_the_limit_and_refuses_one_byte_more(rt: HostRuntime) -> Result<(), Fail> {
    let alloc = rt.alloc();
    let mut fits = SteadySource::new(pattern(alloc, 100_000)?);
    let found = read_to_limit(alloc, &mut fits, 100_000)?;
    assert_eq!(rt; found.len(), 100_000);
    let mut large = SteadySource::new(pattern(alloc, 100_001)?);
    let refused = read_to_limit(alloc, &mut large, 100_000).err();
    assert_eq!(rt; refused, Some(ReadError::TooLong));
    Ok(())
}

#[test]
fn a_failing_read_is_answered_and_counted(rt: HostRuntime) -> Result<(), Fail> {
    let alloc = rt.alloc();
    for (call, left) in [(1, 100_000), (2, 34_464)] {
        let mut source = MemSource::new(pattern(alloc, 100_000)?, vec![in alloc; call]?);
        let refused = read_to_limit(alloc, &mut source, 1 << 20).err();
        assert_eq!(rt; refused, Some(ReadError::Failed), "at call {call}");
        assert_eq!(rt; source.faults(), 1, "at call {call}");
        let rest = read_to_limit(alloc, &mut source, 1 << 20)?;
        assert_eq!(rt; rest.len(), left, "at call {call}");
    }
    Ok(())
}

#[test]
fn hands_text_on_in_pieces(rt: HostRuntime) -> Result<(), Fail> {
    let alloc = rt.alloc();
    for (pending, written, left) in [
        (65_535, 0, 65_535),
        (65_536, 65_536, 0),
        (65_540, 65_540, 0),
    ] {
        let mut sink = SteadySink::new(alloc);
        let mut text = letters(alloc, pending)?;
        hand_on(alloc, &mut sink, &mut text)?;
        assert_eq!(rt; sink.bytes().len(), written, "of {pending}");
        assert_eq!(rt; text.len(), left, "of {pending}");
    }
    Ok(())
}

#[test]
fn a_text_that_is_not_taken_stays_pending(rt: HostRuntime) -> Result<(), Fail> {
    let alloc = rt.alloc();
    let mut sink = MemSink::new(alloc, vec![in alloc; 1]?);
    let mut text = letters(alloc, PIECE)?;
    let refused = hand_on(alloc, &mut sink, &mut text).err();
    assert_eq!(rt; refused, Some(WriteError::Failed));
    assert_eq!(rt; text.len(), PIECE);
    hand_on(alloc, &mut sink, &mut text)?;
    assert_eq!(rt; sink.bytes().len(), PIECE);
    Ok(())
}

/// Writes two texts, and answers which of them failed.
fn two_writes(alloc: Global, sink: &mut MemSink) -> (bool, bool) {
    let first = write_all(alloc, sink, b"first ".as_slice()).is_err();
    let second = write_all(alloc, sink, b"second".as_slice()).is_err();
    (first, second)
}

/// The sink took just this, and one call failed.
fn took(sink: &MemSink, taken: &str) -> bool {
    sink.bytes() == taken.as_bytes() && sink.faults() == 1
}

#[test]
fn a_failing_write_leaves_what_was_taken_before(rt: HostRuntime) -> Result<(), Fail> {
    let alloc = rt.alloc();
    for (call, taken) in [(1, "second"), (2, "first ")] {
        let failing = vec![in alloc; call]?;
        let mut sink = MemSink::new(alloc, failing);
        assert_eq!(rt;
            two_writes(alloc, &mut sink),
            (call == 1, call == 2),
            "at call {call}"
        );
        assert!(rt; took(&sink, taken), "at call {call}");
    }
    Ok(())
}

#[test]
fn errors_say_what_failed(rt: HostRuntime) -> Result<(), Fail> {
    let alloc = rt.alloc();
    assert_eq!(rt; Failed.to_string(alloc)?.as_str(), "the call failed");
    for (error, text) in [
        (ReadError::Failed, "a read failed"),
        (ReadError::TooLong, "there is more to read than the limit"),
        (ReadError::Memory, "memory ran out while reading"),
    ] {
        assert_eq!(rt; error.to_string(alloc)?.as_str(), text);
    }
    for (error, text) in [
        (WriteError::Failed, "a write failed"),
        (WriteError::Memory, "memory ran out while writing"),
    ] {
        assert_eq!(rt; error.to_string(alloc)?.as_str(), text);
    }
    Ok(())
}

/// A reader that gives two bytes a call, and whose second call fails.
#[derive(Drop)]
struct Faltering<'a> {
    rest: &'a [u8],
    calls: u8,
}

impl Read for Faltering<'_> {
    fn read(&mut self, buf: &mut [u8]) -> io::Result<usize> {
        self.calls = self.calls.saturating_add(1);
        if self.calls == 2 {
            return Err(io::Error::from(ErrorKind::BrokenPipe));
        }
        let count = self.rest.len().min(buf.len()).min(2);
        buf[..count].copy_from_slice(&self.rest[..count]);
        self.rest = &self.rest[count..];
        Ok(count)
    }
}

/// Reads once, and answers whether this came of it: the count or the fault, the bytes, and the
/// count of faults then.
fn reads(
    source: &mut StdSource<Faltering>,
    answer: Result<usize, Failed>,
    bytes: &[u8],
    faults: u64,
) -> bool {
    let mut buf = [0; 8];
    let read = source.read(&mut buf);
    read == answer && buf.starts_with(bytes) && source.faults() == faults
}

#[test]
fn a_reader_that_fails_in_mid_stream_reads_on(rt: HostRuntime) -> Result<(), Fail> {
    let mut source = StdSource::new(Faltering {
        rest: b"abc".as_slice(),
        calls: 0,
    });
    assert!(rt; reads(&mut source, Ok(2), b"ab".as_slice(), 0));
    assert!(rt; reads(&mut source, Err(Failed), b"".as_slice(), 1));
    assert!(rt; reads(&mut source, Ok(1), b"c".as_slice(), 1));
    assert!(rt; reads(&mut source, Ok(0), b"".as_slice(), 1));
    Ok(())
}

/// A writer that takes this many bytes a call at most.
#[derive(Drop)]
struct Narrow<'a> {
    got: &'a mut Vec<u8>,
    width: usize,
}

impl Write for Narrow<'_> {
    fn write(&mut self, buf: &[u8]) -> io::Result<usize> {
        let count = buf.len().min(self.width);
        self.got.extend_from_slice(&buf[..count])?;
        Ok(count)
    }

    fn flush(&mut self) -> io::Result<()> {
        Ok(())
    }
}

#[test]
fn all_arrives_through_a_writer_of_one_byte_a_call(rt: HostRuntime) -> Result<(), Fail> {
    let alloc = rt.alloc();
    let mut got = Vec::new(alloc);
    {
        let mut sink = StdSink::new(Narrow {
            got: &mut got,
            width: 1,
        });
        write_all(alloc, &mut sink, b"one byte a call".as_slice())?;
        assert_eq!(rt; sink.faults(), 0);
    }
    assert_eq!(rt; got.as_slice(), b"one byte a call".as_slice());
    Ok(())
}

#[test]
fn a_writer_that_takes_nothing_is_at_fault(rt: HostRuntime) -> Result<(), Fail> {
    let alloc = rt.alloc();
    let mut got = Vec::new(alloc);
    let mut sink = StdSink::new(Narrow {
        got: &mut got,
        width: 0,
    });
    assert_eq!(rt; sink.write(alloc, b"".as_slice()), Ok(0));
    assert_eq!(rt; sink.faults(), 0);
    let refused = write_all(alloc, &mut sink, b"text".as_slice());
    assert_eq!(rt; refused, Err(WriteError::Failed));
    assert_eq!(rt; sink.faults(), 1);
    Ok(())
}
