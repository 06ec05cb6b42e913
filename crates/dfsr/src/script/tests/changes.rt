// Scripts whose lines change files.
use super::{expect, expect_bad, repeated};
use crate::status::Status;
use std::alloc::Global;
use std::process::Abort;
use std::test::Fail;

/// That a script of a plain member `a`, some lines and `show a` prints this behind the first `ok`.
fn expect_of_one(rt: &impl Abort, alloc: Global, lines: &str, written: &str) -> Result<(), Fail> {
    let text = format!(in alloc; "member a plain\n{lines}show a\n")?;
    let whole = format!(in alloc; "ok\n{written}")?;
    expect(rt, alloc, text.as_str(), Status::Done, whole.as_str())
}

#[test]
fn one_file_changed_twice(rt: HostRuntime) -> Result<(), Fail> {
    expect_of_one(
        &rt,
        rt.alloc(),
        "change a x 5\nchange a x 9\n",
        "update a:9\nupdate a:10\nvector a:9..11\na:9 a:10 f live root x 1 9 5\n",
    )
}

#[test]
fn two_names_that_match(rt: HostRuntime) -> Result<(), Fail> {
    expect_of_one(
        &rt,
        rt.alloc(),
        "change a Read.Me 5\nchange a rEAD.mE 9\nchange a read_me 7\n",
        "update a:9\nupdate a:10\nupdate a:11\nvector a:9..12\n\
         a:9 a:10 f live root Read.Me 1 9 5\na:11 a:11 f live root read_me 1 7 7\n",
    )
}

#[test]
fn two_members_with_one_name_each(rt: HostRuntime) -> Result<(), Fail> {
    expect(
        &rt,
        rt.alloc(),
        "member a primary\nmember b plain\nchange b x 7\nchange a x 5\nshow a\nshow b\n",
        Status::Done,
        "ok\nok\nupdate b:9\nupdate a:9\nvector a:9..10\na:9 a:9 f live root x 2 5 5\n\
         vector b:9..10\nb:9 b:9 f live root x 1 7 7\n",
    )
}

#[test]
fn a_moment_below_the_held_clock(rt: HostRuntime) -> Result<(), Fail> {
    expect_of_one(
        &rt,
        rt.alloc(),
        "change a x 100\nchange a x 3\nchange a x 101\nchange a x 0\n",
        "update a:9\nupdate a:10\nupdate a:11\nupdate a:12\nvector a:9..13\n\
         a:9 a:12 f live root x 1 103 100\n",
    )
}

#[test]
fn the_largest_moment(rt: HostRuntime) -> Result<(), Fail> {
    expect_of_one(
        &rt,
        rt.alloc(),
        "change a x 2305843009213693951\nchange a x 2305843009213693951\n",
        "update a:9\nupdate a:10\nvector a:9..11\n\
         a:9 a:10 f live root x 1 2305843009213693952 2305843009213693951\n",
    )
}

#[test]
fn files_in_order_of_their_birth(rt: HostRuntime) -> Result<(), Fail> {
    expect_of_one(
        &rt,
        rt.alloc(),
        "change a z 1\nchange a y 1\nchange a x 1\nchange a y 2\n",
        "update a:9\nupdate a:10\nupdate a:11\nupdate a:12\nvector a:9..13\n\
         a:9 a:9 f live root z 1 1 1\na:10 a:12 f live root y 1 2 1\na:11 a:11 f live root x 1 1 1\n",
    )
}

#[test]
fn a_change_at_an_unknown_member(rt: HostRuntime) -> Result<(), Fail> {
    expect_of_one(
        &rt,
        rt.alloc(),
        "change b x 1\n",
        "refused 1 unknown b\nvector empty\n",
    )
}

#[test]
fn moments_outside_the_grammar(rt: HostRuntime) -> Result<(), Fail> {
    let alloc = rt.alloc();
    let moments = [
        "2305843009213693952",
        "18446744073709551616",
        "01",
        "00",
        "+1",
        "-1",
        "1.0",
        "0x1",
        "x",
        "",
    ];
    for moment in moments {
        let text = format!(in alloc; "member a plain\nchange a x {moment}\n")?;
        expect_bad(&rt, alloc, text.as_bytes(), 2)?;
    }
    Ok(())
}

#[test]
fn paths_outside_the_grammar(rt: HostRuntime) -> Result<(), Fail> {
    let alloc = rt.alloc();
    let long = repeated(alloc, "x", 256)?;
    let paths = [
        "",
        long.as_str(),
        "/",
        "x\\y",
        "x y",
        "x\ty",
        "\u{7f}",
        "\u{e9}",
    ];
    for path in paths {
        let text = format!(in alloc; "member a plain\nchange a {path} 1\n")?;
        expect_bad(&rt, alloc, text.as_bytes(), 2)?;
    }
    Ok(())
}

#[test]
fn the_longest_path(rt: HostRuntime) -> Result<(), Fail> {
    let alloc = rt.alloc();
    let path = repeated(alloc, "~", 255)?;
    let path = path.as_str();
    let lines = format!(in alloc; "change a {path} 0\n")?;
    let written = format!(in alloc;
        "update a:9\nvector a:9..10\na:9 a:9 f live root {path} 1 0 0\n"
    )?;
    expect_of_one(&rt, alloc, lines.as_str(), written.as_str())
}
