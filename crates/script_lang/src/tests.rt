use crate::{Line, ParseError, parse, parse_prefix, print, row_number};
use frs_base::{Bytes, List, MemberKind, Name};
use std::alloc::Global;
use std::process::Abort;
use std::test::Fail;

/// Scripts, and how many lines each has.
const GOOD: [(&str, usize); 43] = [
    ("", 0),
    ("\n", 0),
    ("\n\n\n", 0),
    ("#", 0),
    ("# a comment\n", 0),
    ("# \u{e9}\u{0}\r \n#\t", 0),
    ("member a primary", 1),
    ("member abcdefgh plain\n", 1),
    ("member z plain\n\n", 1),
    ("put a x t", 1),
    ("put a x ", 1),
    ("put a x  ", 1),
    ("put a x   two  blanks ", 1),
    ("put a x/y/z \u{e9}\u{0}\r\t", 1),
    ("put a ! #", 1),
    ("fill a x 0", 1),
    ("fill a x 10", 1),
    ("fill a x 4294967295", 1),
    ("mkdir a #", 1),
    ("mkdir a ~", 1),
    ("mkdir a ..", 1),
    ("mkdir a a:b/[c]/D", 1),
    ("move a x y", 1),
    ("move a x x", 1),
    ("move a x/y X/y/z", 1),
    ("remove a x", 1),
    ("remove a x/y", 1),
    ("consume a 0", 1),
    ("consume a 2305843009213693951", 1),
    ("change a x 1", 1),
    ("change a x/y 100", 1),
    ("pull a b", 1),
    ("pull a a", 1),
    ("install a", 1),
    ("drain a", 1),
    ("show a", 1),
    ("tree a", 1),
    ("sums a", 1),
    ("count a", 1),
    ("#show\nshow a\n# x\nshow b", 2),
    ("member a primary\nmember b plain\nshow a\n", 3),
    ("put a 0 1\nput a 1 0", 2),
    ("\n\nshow a\n\n", 1),
];

/// Bytes with a row outside the grammar, and the number of the first.
const BAD: [(&[u8], u64); 46] = [
    (b"show", 1),
    (b"show ", 1),
    (b"show a ", 1),
    (b" show a", 1),
    (b"show  a", 1),
    (b"show\ta", 1),
    (b"show a\r\n", 1),
    (b"Show a", 1),
    (b"shows a", 1),
    (b"show abcdefghi", 1),
    (b"show A", 1),
    (b"show a1", 1),
    (b"show a b", 1),
    (b"install", 1),
    (b"drain a b", 1),
    (b"sums", 1),
    (b"sums a b", 1),
    (b"sums  a", 1),
    (b"sum a", 1),
    (b"\xef\xbb\xbfshow a", 1),
    (b" # x", 1),
    (b"  ", 1),
    (b"# \xff", 1),
    (b"member a", 1),
    (b"member a Plain", 1),
    (b"member a plain ", 1),
    (b"put a x", 1),
    (b"put a  t", 1),
    (b"put a x/ t", 1),
    (b"put a /x t", 1),
    (b"put a x//y t", 1),
    (b"put a x\\y t", 1),
    (b"put a \x7f t", 1),
    (b"put a \xc3\xa9 t", 1),
    (b"put a x \xc3", 1),
    (b"fill a x 4294967296", 1),
    (b"fill a x 07", 1),
    (b"fill a x +7", 1),
    (b"consume a -7", 1),
    (b"consume a 2305843009213693952", 1),
    (b"change a x 1 ", 1),
    (b"move a x", 1),
    (b"\n\n# c\nshow", 4),
    (b"show a\n#\n\npull a  b\nshow a\n", 4),
    (b"show a\nput a x\nshow\n", 2),
    (b"#\nshow a\n \n", 3),
];

#[test]
fn good_rows_are_read(rt: HostRuntime) -> Result<(), Fail> {
    for (text, count) in GOOD {
        assert_eq!(rt;
            parse(rt.alloc(), text.as_bytes())?.len(),
            count,
            "{text:?}"
        );
    }
    Ok(())
}

#[test]
fn bad_rows_are_numbered(rt: HostRuntime) {
    for (text, number) in BAD {
        let answer = parse(rt.alloc(), text);
        assert_eq!(rt;
            answer.err(),
            Some(ParseError::LineBad { number }),
            "{text:?}"
        );
    }
}

fn bytes_of(alloc: Global, text: &str) -> Result<Bytes, Fail> {
    Ok(Bytes::of(Vec::from_slice(alloc, text.as_bytes())?))
}

fn path_of(alloc: Global, components: &[&str]) -> Result<List<Name>, Fail> {
    let mut names = Vec::new(alloc);
    for component in components {
        let mut units = Vec::new(alloc);
        for byte in component.as_bytes() {
            units.push(u16::from(*byte))?;
        }
        names.push(Name::from_units(alloc, &units)?)?;
    }
    Ok(List::of(names))
}

// What owns a line or a list of lines lends it to one function: each early return past one that is
// owned makes a proof much longer.

/// Whether the row is read as this one line, which is printed as the row.
fn is_read_as(alloc: Global, row: &str, line: &Line) -> Result<bool, Fail> {
    let lines = parse(alloc, row.as_bytes())?;
    let mut is = lines.len() == 1 && lines[0] == *line;
    for read in &lines {
        match print(alloc, read) {
            Ok(text) => is = is && text.as_str() == row,
            Err(_) => is = false,
        }
    }
    Ok(is)
}

/// The row is read as this line, and the line is printed as the row.
fn try_row(rt: &impl Abort, alloc: Global, row: &str, line: &Line) -> Result<(), Fail> {
    assert!(rt; is_read_as(alloc, row, line)?, "{row:?} {line:?}");
    Ok(())
}

/// The same of a line that is made for it.
fn expect_row(
    rt: &impl Abort,
    alloc: Global,
    row: &str,
    line: Result<Line, Fail>,
) -> Result<(), Fail> {
    let line = line?;
    try_row(rt, alloc, row, &line)
}

/// The line with this keyword that says no more than a member's name.
fn line_of(alloc: Global, keyword: &str, name: &str) -> Result<Line, Fail> {
    let name = bytes_of(alloc, name)?;
    match keyword {
        "install" => Ok(Line::Install { name }),
        "drain" => Ok(Line::Drain { name }),
        "show" => Ok(Line::Show { name }),
        "tree" => Ok(Line::Tree { name }),
        "sums" => Ok(Line::Sums { name }),
        "count" => Ok(Line::Count { name }),
        _ => Err("no such keyword")?,
    }
}

fn member_line(alloc: Global, name: &str, kind: MemberKind) -> Result<Line, Fail> {
    let name = bytes_of(alloc, name)?;
    Ok(Line::Member { name, kind })
}

fn pull_line(alloc: Global, name: &str, other: &str) -> Result<Line, Fail> {
    let name = bytes_of(alloc, name)?;
    let other = bytes_of(alloc, other)?;
    Ok(Line::Pull { name, other })
}

#[test]
fn members_are_read_and_printed(rt: HostRuntime) -> Result<(), Fail> {
    let alloc = rt.alloc();
    for (row, name, kind) in [
        ("member a primary", "a", MemberKind::Primary),
        ("member abcdefgh plain", "abcdefgh", MemberKind::Plain),
    ] {
        expect_row(&rt, alloc, row, member_line(alloc, name, kind))?;
    }
    for (row, keyword) in [
        ("install z", "install"),
        ("drain z", "drain"),
        ("show z", "show"),
        ("tree z", "tree"),
        ("sums z", "sums"),
        ("count z", "count"),
    ] {
        expect_row(&rt, alloc, row, line_of(alloc, keyword, "z"))?;
    }
    expect_row(&rt, alloc, "pull a b", pull_line(alloc, "a", "b"))
}

/// The line with this keyword of the member `a` that says no more than a path.
fn path_line(alloc: Global, keyword: &str, components: &[&str]) -> Result<Line, Fail> {
    let name = bytes_of(alloc, "a")?;
    let path = path_of(alloc, components)?;
    match keyword {
        "mkdir" => Ok(Line::Mkdir { name, path }),
        "remove" => Ok(Line::Remove { name, path }),
        "fill" => Ok(Line::Fill {
            name,
            path,
            length: 4_294_967_295,
        }),
        _ => Ok(Line::Change {
            name,
            path,
            moment: 0,
        }),
    }
}

fn move_line(alloc: Global, from: &[&str], to: &[&str]) -> Result<Line, Fail> {
    let name = bytes_of(alloc, "a")?;
    let from = path_of(alloc, from)?;
    let to = path_of(alloc, to)?;
    Ok(Line::Move { name, from, to })
}

fn consume_line(alloc: Global, moment: u64) -> Result<Line, Fail> {
    let name = bytes_of(alloc, "a")?;
    Ok(Line::Consume { name, moment })
}

#[test]
fn files_are_read_and_printed(rt: HostRuntime) -> Result<(), Fail> {
    let alloc = rt.alloc();
    let line = path_line(alloc, "mkdir", &["x", "Y.z"]);
    expect_row(&rt, alloc, "mkdir a x/Y.z", line)?;
    let line = path_line(alloc, "remove", &["!", "~"]);
    expect_row(&rt, alloc, "remove a !/~", line)?;
    let line = move_line(alloc, &["x", "y"], &["z"]);
    expect_row(&rt, alloc, "move a x/y z", line)?;
    let line = path_line(alloc, "fill", &["x"]);
    expect_row(&rt, alloc, "fill a x 4294967295", line)?;
    let line = consume_line(alloc, 2_305_843_009_213_693_951);
    expect_row(&rt, alloc, "consume a 2305843009213693951", line)?;
    expect_row(
        &rt,
        alloc,
        "change a x 0",
        path_line(alloc, "change", &["x"]),
    )
}

fn put_line(alloc: Global, text: &str) -> Result<Line, Fail> {
    let name = bytes_of(alloc, "a")?;
    let path = path_of(alloc, &["x"])?;
    let text = bytes_of(alloc, text)?;
    Ok(Line::Put { name, path, text })
}

#[test]
fn a_text_keeps_its_blanks(rt: HostRuntime) -> Result<(), Fail> {
    let rows = [
        ("put a x t", "t"),
        ("put a x ", ""),
        ("put a x  ", " "),
        ("put a x   two  blanks ", "  two  blanks "),
        ("put a x \u{e9} #\t", "\u{e9} #\t"),
    ];
    for (row, text) in rows {
        expect_row(&rt, rt.alloc(), row, put_line(rt.alloc(), text))?;
    }
    Ok(())
}

/// `mkdir a ` and the component so often, with `/` between.
fn mkdir_row(alloc: Global, component: &str, count: u8) -> Result<String, Fail> {
    let mut row = String::from_str(alloc, "mkdir a ")?;
    row.push_str(component)?;
    for _ in 1..count {
        row.push('/')?;
        row.push_str(component)?;
    }
    Ok(row)
}

/// How many lines are read from a `mkdir` row with a path of so many of these components.
fn lines_with(
    alloc: Global,
    component: &str,
    count: u8,
) -> Result<Result<usize, ParseError>, Fail> {
    let row = mkdir_row(alloc, component, count)?;
    Ok(parse(alloc, row.as_bytes()).map(|lines| lines.len()))
}

/// A component of so many characters.
fn component(alloc: Global, length: u16) -> Result<String, Fail> {
    let mut text = String::new(alloc);
    for _ in 0..length {
        text.push('c')?;
    }
    Ok(text)
}

/// The same of components of so many characters.
fn lines_of(alloc: Global, length: u16, count: u8) -> Result<Result<usize, ParseError>, Fail> {
    let component = component(alloc, length)?;
    lines_with(alloc, component.as_str(), count)
}

#[test]
fn paths_have_64_components_of_255_characters(rt: HostRuntime) -> Result<(), Fail> {
    let bad = Err(ParseError::LineBad { number: 1 });
    assert_eq!(rt; lines_of(rt.alloc(), 255, 64)?, Ok(1));
    assert_eq!(rt; lines_of(rt.alloc(), 1, 65)?, bad);
    assert_eq!(rt; lines_of(rt.alloc(), 256, 1)?, bad);
    Ok(())
}

/// The number of the bad row, and how many lines stand before it.
fn prefix_of(alloc: Global, text: &[u8]) -> Result<(Option<u64>, usize), Fail> {
    let prefix = parse_prefix(alloc, text)?;
    Ok((prefix.bad, prefix.lines.len()))
}

#[test]
fn lines_before_a_bad_row_are_kept(rt: HostRuntime) -> Result<(), Fail> {
    let text = b"# two lines\nshow a\n\ntree a\nshow\ncount a\n";
    assert_eq!(rt; prefix_of(rt.alloc(), text)?, (Some(5), 2));
    assert_eq!(rt; row_number(text, 0), Some(2));
    assert_eq!(rt; row_number(text, 1), Some(4));
    assert_eq!(rt; row_number(text, 3), Some(6));
    assert_eq!(rt; row_number(text, 4), None);
    assert_eq!(rt; prefix_of(rt.alloc(), b"show a")?, (None, 1));
    Ok(())
}
