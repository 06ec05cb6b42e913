use super::ran;
use crate::status::Status;
use std::alloc::Global;
use std::process::Abort;
use std::test::Fail;

/// Runs `dfsr` with some words over a script that it isn't to read, from an input that fails.
fn big(alloc: Global, words: &[&str]) -> Result<(Status, String), Fail> {
    let reads = vec![in alloc; 1, 2]?;
    let (status, out) = ran(alloc, words, b"frob\n", reads, Vec::new(alloc))?;
    let mut text = String::new(alloc);
    for byte in out.bytes() {
        text.push(char::from(*byte))?;
    }
    Ok((status, text))
}

/// That these words end with 0 and write this line three times.
fn expect_thrice(rt: &impl Abort, alloc: Global, words: &[&str], line: &str) -> Result<(), Fail> {
    let (status, text) = big(alloc, words)?;
    let lines = format!(in alloc; "{line}{line}{line}")?;
    assert_eq!(rt; status, Status::Done, "{words:?}");
    assert_eq!(rt; text.as_str(), lines.as_str(), "{words:?}");
    Ok(())
}

#[test]
fn big_5_1(rt: HostRuntime) -> Result<(), Fail> {
    let line = "records 1 live 1 files 1 intervals 3\n";
    expect_thrice(&rt, rt.alloc(), &["big", "5", "1"], line)
}

#[test]
fn big_0_1(rt: HostRuntime) -> Result<(), Fail> {
    let line = "records 0 live 0 files 0 intervals 0\n";
    expect_thrice(&rt, rt.alloc(), &["big", "0", "1"], line)
}

#[test]
fn big_7_2000(rt: HostRuntime) -> Result<(), Fail> {
    let alloc = rt.alloc();
    let words = ["big", "7", "2000"];
    let (status, text) = big(alloc, &words)?;
    assert_eq!(rt; status, Status::Done);
    let end = text.find('\n').ok_or("a line")?;
    let line = format!(in alloc; "{}\n", &text[..end])?;
    expect_thrice(&rt, alloc, &words, line.as_str())
}

#[test]
fn the_largest_seed(rt: HostRuntime) -> Result<(), Fail> {
    let (status, _) = big(rt.alloc(), &["big", "18446744073709551615", "1"])?;
    assert_eq!(rt; status, Status::Done);
    Ok(())
}

#[test]
fn words_that_are_no_seed_or_number(rt: HostRuntime) -> Result<(), Fail> {
    let rows: [&[&str]; 10] = [
        &["big"],
        &["big", "1"],
        &["big", "1", "0"],
        &["big", "1", "20001"],
        &["big", "01", "5"],
        &["big", "18446744073709551616", "1"],
        &["big", "-1", "1"],
        &["big", "1", "1", "1"],
        &["Big", "1", "1"],
        &["big", "1", "+1"],
    ];
    for words in rows {
        let (status, text) = big(rt.alloc(), words)?;
        assert_eq!(rt; status, Status::Usage, "{words:?}");
        assert_eq!(rt; text.as_str(), "", "{words:?}");
    }
    Ok(())
}

#[test]
fn a_sink_that_fails_at_the_counts(rt: HostRuntime) -> Result<(), Fail> {
    let alloc = rt.alloc();
    let failing = vec![in alloc; 1]?;
    let words = ["big", "5", "1"];
    let (status, out) = ran(alloc, &words, b"", Vec::new(alloc), failing)?;
    assert_eq!(rt; status, Status::WriteFault);
    assert_eq!(rt; out.bytes(), b"".as_slice());
    Ok(())
}
