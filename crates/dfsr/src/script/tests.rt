use super::script_main;
use crate::status::Status;
use frs_io::{MemSink, MemSource};
use std::alloc::Global;
use std::process::Abort;
use std::test::Fail;

/// Runs `dfsr` with some words over a script; the input and the output fail at the given calls.
fn ran(
    alloc: Global,
    words: &[&str],
    script: &[u8],
    reads: Vec<u64>,
    writes: Vec<u64>,
) -> Result<(Status, MemSink), Fail> {
    let mut owned = Vec::new(alloc);
    for word in words {
        owned.push(String::from_str(alloc, word)?)?;
    }
    let mut input = MemSource::new(Vec::from_slice(alloc, script)?, reads);
    let mut out = MemSink::new(alloc, writes);
    let status = script_main(alloc, &owned, &mut input, &mut out);
    Ok((status, out))
}

/// Runs a script over an input and an output that don't fail.
fn script(alloc: Global, text: &[u8]) -> Result<(Status, MemSink), Fail> {
    ran(alloc, &["script"], text, Vec::new(alloc), Vec::new(alloc))
}

/// That a script ends with this status and writes this text.
fn expect(
    rt: &impl Abort,
    alloc: Global,
    text: &str,
    status: Status,
    written: &str,
) -> Result<(), Fail> {
    let (ended, out) = script(alloc, text.as_bytes())?;
    assert_eq!(rt; ended, status, "{text:?}");
    assert_eq!(rt; out.bytes(), written.as_bytes(), "{text:?}");
    Ok(())
}

/// A text, this many times.
fn repeated(alloc: Global, text: &str, times: usize) -> Result<String, Fail> {
    let mut all = String::new(alloc);
    for _ in 0..times {
        all.push_str(text)?;
    }
    Ok(all)
}

#[test]
fn the_empty_script_writes_nothing(rt: HostRuntime) -> Result<(), Fail> {
    expect(&rt, rt.alloc(), "", Status::Done, "")
}

#[test]
fn short_scripts(rt: HostRuntime) -> Result<(), Fail> {
    let rows = [
        ("\n", ""),
        ("# nothing\n\n#\n", ""),
        ("member a primary\n", "ok\n"),
        ("member a primary", "ok\n"),
        ("member a plain\nmember b plain\n", "ok\nok\n"),
        ("show a\n", "refused 1 unknown a\n"),
        ("member a plain\nshow a\n", "ok\nvector empty\n"),
        ("sums a\n", "refused 1 unknown a\n"),
        (
            "member a plain\nmkdir a d\nsums a\n",
            "ok\nusn 9\nsums empty\n",
        ),
        (
            "member a plain\nmember a primary\n",
            "ok\nrefused 2 exists a\n",
        ),
        (
            "member abcdefgh plain\nshow abcdefgh\n",
            "ok\nvector empty\n",
        ),
        (
            "show b\n\nmember b plain\n# \u{e9}\nshow b\nshow a",
            "refused 1 unknown b\nok\nvector empty\nrefused 1 unknown a\n",
        ),
    ];
    for (text, written) in rows {
        expect(&rt, rt.alloc(), text, Status::Done, written)?;
    }
    Ok(())
}

/// That a script has a row outside the grammar, whose number is written.
fn expect_bad(rt: &impl Abort, alloc: Global, text: &[u8], number: u64) -> Result<(), Fail> {
    let line = format!(in alloc; "bad line {number}\n")?;
    let (ended, out) = script(alloc, text)?;
    assert_eq!(rt; ended, Status::ScriptBad, "{text:?}");
    assert_eq!(rt; out.bytes(), line.as_bytes(), "{text:?}");
    Ok(())
}

#[test]
fn a_second_line_that_is_no_line(rt: HostRuntime) -> Result<(), Fail> {
    expect_bad(&rt, rt.alloc(), b"member a primary\nfrob\n", 2)
}

#[test]
fn a_put_without_its_space(rt: HostRuntime) -> Result<(), Fail> {
    expect_bad(&rt, rt.alloc(), b"member a primary\nput a x\n", 2)
}

#[test]
fn rows_outside_the_grammar(rt: HostRuntime) -> Result<(), Fail> {
    let rows = [
        "show\n",
        "show a \n",
        " show a\n",
        "show  a\n",
        "show a\r\n",
        "show A\n",
        "show abcdefghi\n",
        "show \n",
        "member a\n",
        "member a second\n",
        "member a plain x\n",
        " # x\n",
        "show\ta\n",
    ];
    for text in rows {
        expect_bad(&rt, rt.alloc(), text.as_bytes(), 1)?;
    }
    expect_bad(&rt, rt.alloc(), b"member a plain\n# \xff\n", 2)
}

#[test]
fn empty_rows_and_comments_are_counted(rt: HostRuntime) -> Result<(), Fail> {
    let rows = [
        ("\n\nfrob", 3),
        (
            "# frob\n\nmember a plain\n# x\n\nshow a\nshow  a\nfrob\n",
            7,
        ),
        ("member a plain\n\n \n", 3),
        ("#\n#\n#\nshow a\n\u{a0}\n", 5),
    ];
    for (text, number) in rows {
        expect_bad(&rt, rt.alloc(), text.as_bytes(), number)?;
    }
    Ok(())
}

#[test]
fn moved_and_removed(rt: HostRuntime) -> Result<(), Fail> {
    expect(
        &rt,
        rt.alloc(),
        "member a primary\nmember b plain\nmkdir a d\nconsume a 10\nmove a d e\nremove a e\nconsume a 11\nconsume a 12\nshow a\npull b a\nshow b\n",
        Status::Done,
        "ok\nok\nusn 9\nupdate a:9\nusn 10\nusn 11\nskip a:10\nupdate a:11\nvector a:9..12\na:9 a:11 d gone root d 2 12 10\npulled 1\nvector a:9..12\na:9 a:11 d gone root d 2 12 10\n",
    )
}

#[test]
fn local_refusals(rt: HostRuntime) -> Result<(), Fail> {
    expect(
        &rt,
        rt.alloc(),
        "member a primary\nmember a plain\nput z x hi\nput a d/x hi\nput a f hi\nput a f/x hi\nmkdir a f\nmkdir a d\nmove a f d/F\nremove a d\nmove a d d/e\nfill a g 1048577\nfill a g 1048576\nconsume a 5\npull a a\n",
        Status::Done,
        "ok\nrefused 2 exists a\nrefused 1 unknown z\nrefused 5 nopath\nusn 9\nrefused 6 notdir\nrefused 8 taken\nusn 10\nusn 11\nrefused 7 notempty\nrefused 9 loop\nrefused 10 toolarge 1048577\nusn 12\nskip a:9\nrefused 18 self\n",
    )
}

#[test]
fn a_bad_line_goes_before_nine_members(rt: HostRuntime) -> Result<(), Fail> {
    let nine = repeated(rt.alloc(), "member a plain\n", 9)?;
    let text = format!(in rt.alloc(); "{nine}show\n")?;
    expect_bad(&rt, rt.alloc(), text.as_bytes(), 10)
}

#[test]
fn a_sink_that_fails_at_the_bad_line(rt: HostRuntime) -> Result<(), Fail> {
    let alloc = rt.alloc();
    let failing = vec![in alloc; 1]?;
    let (ended, out) = ran(alloc, &["script"], b"frob\n", Vec::new(alloc), failing)?;
    assert_eq!(rt; ended, Status::WriteFault);
    assert_eq!(rt; out.bytes(), b"".as_slice());
    Ok(())
}

#[test]
fn a_failing_first_and_second_read(rt: HostRuntime) -> Result<(), Fail> {
    let alloc = rt.alloc();
    for call in [1, 2] {
        let (ended, out) = ran(
            alloc,
            &["script"],
            b"member a plain\n",
            vec![in alloc; call]?,
            Vec::new(alloc),
        )?;
        assert_eq!(rt; ended, Status::ReadFault);
        assert_eq!(rt; out.bytes(), b"".as_slice());
    }
    Ok(())
}

#[test]
fn a_sink_that_fails_leaves_a_beginning(rt: HostRuntime) -> Result<(), Fail> {
    let alloc = rt.alloc();
    let text = repeated(alloc, "show a\n", 10_000)?;
    let whole = repeated(alloc, "refused 1 unknown a\n", 10_000)?;
    let pieces = [65_540, 131_080, 196_620, 200_000];
    let mut taken = 0;
    for (at, piece) in pieces.iter().enumerate() {
        let failing = vec![in alloc; at as u64 + 1]?;
        let (ended, out) = ran(
            alloc,
            &["script"],
            text.as_bytes(),
            Vec::new(alloc),
            failing,
        )?;
        assert_eq!(rt; ended, Status::WriteFault);
        assert_eq!(rt; out.bytes().len(), taken);
        assert!(rt; whole.as_bytes().starts_with(out.bytes()));
        taken = *piece;
    }
    let (ended, out) = script(alloc, text.as_bytes())?;
    assert_eq!(rt; ended, Status::Done);
    assert_eq!(rt; out.bytes(), whole.as_bytes());
    Ok(())
}

#[test]
fn nine_member_lines(rt: HostRuntime) -> Result<(), Fail> {
    let alloc = rt.alloc();
    let eight = repeated(alloc, "member a plain\n", 8)?;
    let (ended, _) = script(alloc, eight.as_bytes())?;
    assert_eq!(rt; ended, Status::Done);
    let nine = repeated(alloc, "member a plain\n", 9)?;
    expect(&rt, alloc, nine.as_str(), Status::TooLarge, "")
}

#[test]
fn more_bytes_than_a_script_has(rt: HostRuntime) -> Result<(), Fail> {
    let alloc = rt.alloc();
    let most = vec![in alloc; b'#'; 16_777_216]?;
    let (ended, out) = script(alloc, &most)?;
    assert_eq!(rt; ended, Status::Done);
    assert_eq!(rt; out.bytes(), b"".as_slice());
    let more = vec![in alloc; b'x'; 16_777_217]?;
    let (ended, out) = script(alloc, &more)?;
    assert_eq!(rt; ended, Status::TooLarge);
    assert_eq!(rt; out.bytes(), b"".as_slice());
    Ok(())
}

#[test]
fn other_words(rt: HostRuntime) -> Result<(), Fail> {
    let alloc = rt.alloc();
    let rows: [&[&str]; 4] = [&[], &["script", "x"], &["Script"], &["--help"]];
    for words in rows {
        let (ended, out) = ran(alloc, words, b"frob\n", Vec::new(alloc), Vec::new(alloc))?;
        assert_eq!(rt; ended, Status::Usage);
        assert_eq!(rt; out.bytes(), b"".as_slice());
    }
    Ok(())
}

mod big;
mod changes;
mod installer;
mod pulls;
mod sums;
