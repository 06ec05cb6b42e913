// What no contract says: that memory is found, and what stands on the edges of the rows.
use super::wire_main;
use crate::status::Status;
use frs_io::{MemSink, MemSource};
use std::alloc::{AllocError, Global};
use std::process::Abort;
use std::test::Fail;

/// Runs over some bytes; the input and the output fail at the given calls.
fn ran(
    alloc: Global,
    words: &[String],
    bytes: Vec<u8>,
    reads: Vec<u64>,
    writes: Vec<u64>,
) -> (Status, MemSink) {
    let mut input = MemSource::new(bytes, reads);
    let mut out = MemSink::new(alloc, writes);
    let status = wire_main(alloc, words, &mut input, &mut out);
    (status, out)
}

/// That some bytes end with this status and write this text.
fn expect(
    rt: &impl Abort,
    alloc: Global,
    bytes: &[u8],
    status: Status,
    written: &str,
) -> Result<(), AllocError> {
    let words = Vec::new(alloc);
    let bytes = Vec::from_slice(alloc, bytes)?;
    let (ended, out) = ran(alloc, &words, bytes, Vec::new(alloc), Vec::new(alloc));
    assert_eq!(rt; ended, status, "{written}");
    assert_eq!(rt; out.bytes(), written.as_bytes());
    Ok(())
}

#[test]
fn rows_and_their_ends(rt: HostRuntime) -> Result<(), Fail> {
    let alloc = rt.alloc();
    for (bytes, status, written) in [
        ("", Status::Done, ""),
        ("pdu -\nform -\n", Status::Done, "more\nbad 0\n"),
        ("\n", Status::RowBad, "bad line 1\n"),
        ("pdu -", Status::RowBad, "bad line 1\n"),
        ("pdu -\nfrob\npdu -\n", Status::RowBad, "more\nbad line 2\n"),
        ("pdu -\npdu -", Status::RowBad, "more\nbad line 2\n"),
    ] {
        expect(&rt, alloc, bytes.as_bytes(), status, written)?;
    }
    Ok(())
}

/// The letter `0` so many times behind `pdu `.
fn digits(alloc: Global, count: usize) -> Result<Vec<u8>, AllocError> {
    let mut bytes = Vec::from_slice(alloc, b"pdu ")?;
    for _ in 0..count {
        bytes.push(b'0')?;
    }
    bytes.push(b'\n')?;
    Ok(bytes)
}

#[test]
fn the_longest_row(rt: HostRuntime) -> Result<(), Fail> {
    let alloc = rt.alloc();
    let longest = digits(alloc, 16_777_212)?;
    expect(&rt, alloc, &longest, Status::Done, "bad Version\n")?;
    let longer = digits(alloc, 16_777_213)?;
    expect(&rt, alloc, &longer, Status::TooLarge, "")?;
    Ok(())
}

#[test]
fn faults(rt: HostRuntime) -> Result<(), Fail> {
    let alloc = rt.alloc();
    let words = Vec::new(alloc);
    let row = Vec::from_slice(alloc, b"pdu -\n")?;
    let (ended, _) = ran(alloc, &words, row, vec![in alloc; 1]?, Vec::new(alloc));
    assert_eq!(rt; ended, Status::ReadFault);
    let row = Vec::from_slice(alloc, b"pdu -\n")?;
    let (ended, out) = ran(alloc, &words, row, Vec::new(alloc), vec![in alloc; 1]?);
    assert_eq!(rt; ended, Status::WriteFault);
    assert_eq!(rt; out.bytes(), b"".as_slice());
    let mut words = Vec::new(alloc);
    words.push(String::from_str(alloc, "--help")?)?;
    let row = Vec::from_slice(alloc, b"pdu -\n")?;
    let (ended, _) = ran(alloc, &words, row, Vec::new(alloc), Vec::new(alloc));
    assert_eq!(rt; ended, Status::Usage);
    Ok(())
}
