// Scripts whose lines install.
use super::{expect, repeated};
use crate::status::Status;
use std::alloc::Global;
use std::process::Abort;
use std::test::Fail;

/// That these lines, each behind a primary member `a` and a plain member `b`, print these texts.
fn expect_of_two(rt: &impl Abort, alloc: Global, rows: &[(&str, &str)]) -> Result<(), Fail> {
    let mut text = String::from_str(alloc, "member a primary\nmember b plain\n")?;
    let mut written = String::from_str(alloc, "ok\nok\n")?;
    for (line, answer) in rows {
        text.push_str(line)?;
        text.push_str("\n")?;
        written.push_str(answer)?;
        written.push_str("\n")?;
    }
    expect(rt, alloc, text.as_str(), Status::Done, written.as_str())
}

#[test]
fn tie(rt: HostRuntime) -> Result<(), Fail> {
    let rows = [
        ("change a x 100", "update a:9"),
        ("pull b a", "pulled 1"),
        ("drain b", "drained 5"),
        ("pull a b", "pulled 0"),
        ("change a x 200", "update a:10"),
        ("change b x 200", "update b:11"),
        ("pull a b", "pulled 1"),
        ("pull b a", "pulled 0"),
        (
            "show a",
            "vector a:9..11 b:9..12\na:9 b:11 f live root x 3 200 100",
        ),
        (
            "show b",
            "vector a:9..11 b:9..12\na:9 b:11 f live root x 3 200 100",
        ),
    ];
    expect_of_two(&rt, rt.alloc(), &rows)
}

#[test]
fn local_before_install(rt: HostRuntime) -> Result<(), Fail> {
    let rows = [
        ("change a x 100", "update a:9"),
        ("pull b a", "pulled 1"),
        ("drain b", "drained 5"),
        ("change a x 200", "update a:10"),
        ("put b x mine", "usn 11"),
        ("pull b a", "pulled 1"),
        ("install b", "refused 12 notyet 11"),
        ("consume b 50", "update b:11"),
        (
            "show b",
            "vector a:9..11 b:9..12\na:9 b:11 f live root x 3 201 100",
        ),
        ("install b", "drained"),
        ("tree b", "f x 4"),
    ];
    expect_of_two(&rt, rt.alloc(), &rows)
}

#[test]
fn matching_names(rt: HostRuntime) -> Result<(), Fail> {
    let rows = [
        ("change a X 100", "update a:9"),
        ("change b x 100", "update b:9"),
        ("pull b a", "pulled 1"),
        ("drain b", "drained 7"),
        ("tree b", "f X 0"),
        ("remove b X", "usn 13"),
        ("consume b 200", "update b:13"),
        ("drain b", "drained 2"),
        ("tree b", "f x 0"),
    ];
    expect_of_two(&rt, rt.alloc(), &rows)
}

#[test]
fn parent_cycle(rt: HostRuntime) -> Result<(), Fail> {
    let rows = [
        ("mkdir a p", "usn 9"),
        ("consume a 10", "update a:9"),
        ("mkdir a q", "usn 10"),
        ("consume a 11", "update a:10"),
        ("pull b a", "pulled 2"),
        ("drain b", "drained 8"),
        ("pull a b", "pulled 0"),
        ("move a p q/p", "usn 11"),
        ("consume a 20", "update a:11"),
        ("move b q p/q", "usn 13"),
        ("consume b 20", "update b:13"),
        ("pull a b", "pulled 1"),
        ("pull b a", "pulled 1"),
        ("drain a", "drained 4"),
        ("drain b", "drained 4"),
        ("tree a", "tree empty"),
        ("tree b", "tree empty"),
    ];
    expect_of_two(&rt, rt.alloc(), &rows)
}

#[test]
fn child_of_removed(rt: HostRuntime) -> Result<(), Fail> {
    let rows = [
        ("mkdir a p", "usn 9"),
        ("consume a 10", "update a:9"),
        ("pull b a", "pulled 1"),
        ("drain b", "drained 4"),
        ("remove a p", "usn 10"),
        ("consume a 20", "update a:10"),
        ("put b p/c hey", "usn 11"),
        ("consume b 20", "update b:11"),
        ("pull a b", "pulled 1"),
        ("pull b a", "pulled 1"),
        ("drain a", "drained 0"),
        ("drain b", "drained 6"),
        ("tree a", "tree empty"),
        ("tree b", "tree empty"),
    ];
    expect_of_two(&rt, rt.alloc(), &rows)
}

#[test]
fn swapped_names(rt: HostRuntime) -> Result<(), Fail> {
    let rows = [
        ("put a x 1", "usn 9"),
        ("put a y 22", "usn 10"),
        ("consume a 10", "update a:9"),
        ("consume a 11", "update a:10"),
        ("pull b a", "pulled 2"),
        ("drain b", "drained 10"),
        ("move a x t", "usn 11"),
        ("move a y x", "usn 12"),
        ("move a t y", "usn 13"),
        ("consume a 20", "skip a:11"),
        ("consume a 20", "update a:12"),
        ("consume a 20", "update a:13"),
        ("pull b a", "pulled 2"),
        ("drain b", "drained 10"),
        ("tree b", "f x 2\nf y 1"),
    ];
    expect_of_two(&rt, rt.alloc(), &rows)
}

#[test]
fn steps_one_by_one(rt: HostRuntime) -> Result<(), Fail> {
    let rows = [
        ("install z", "refused 1 unknown z"),
        ("drain z", "refused 1 unknown z"),
        ("install b", "drained"),
        ("drain b", "drained 0"),
        ("change a x 100", "update a:9"),
        ("pull b a", "pulled 1"),
        ("install b", "make a:9"),
        ("install b", "place a:9"),
        ("install b", "unstage a:9"),
        ("install b", "skip b:9"),
        ("install b", "skip b:10"),
        ("install b", "drained"),
        ("put a x new", "usn 10"),
        ("consume a 200", "update a:10"),
        ("pull b a", "pulled 1"),
        ("install b", "rewrite a:9"),
        ("put b y mine", "usn 12"),
        ("drain b", "refused 12 notyet 12"),
        ("tree b", "f x 3\nf y 4"),
    ];
    expect_of_two(&rt, rt.alloc(), &rows)
}

/// The directories and the files of the usual folder, and a record consumed for each.
fn usual_folder(alloc: Global) -> Result<String, Fail> {
    let mut text = String::from_str(alloc, "member a primary\nmember b plain\nmkdir a top\n")?;
    for k in 1..41u64 {
        let line = format!(in alloc; "mkdir a top/d{k}\n")?;
        text.push_str(line.as_str())?;
    }
    for k in 1..301u64 {
        let j = k % 40 + 1;
        let length = if k % 100 == 0 { 921_600 } else { 100 * k };
        let line = format!(in alloc; "fill a top/d{j}/f{k} {length}\n")?;
        text.push_str(line.as_str())?;
    }
    let consumed = repeated(alloc, "consume a 50\n", 341)?;
    text.push_str(consumed.as_str())?;
    text.push_str("pull b a\ndrain b\nmove a top new\nconsume a 60\npull b a\ndrain b\ncount b\n")?;
    Ok(text)
}

/// What its lines print.
fn usual_answers(alloc: Global) -> Result<String, Fail> {
    let mut written = String::from_str(alloc, "ok\nok\n")?;
    for usn in 9..350u64 {
        let line = format!(in alloc; "usn {usn}\n")?;
        written.push_str(line.as_str())?;
    }
    for usn in 9..350u64 {
        let line = format!(in alloc; "update a:{usn}\n")?;
        written.push_str(line.as_str())?;
    }
    written.push_str(
        "pulled 341\ndrained 1664\nusn 350\nupdate a:350\npulled 1\ndrained 4\n\
         records 341 live 341 files 300 intervals 2\n",
    )?;
    Ok(written)
}

#[test]
fn the_usual_folder(rt: HostRuntime) -> Result<(), Fail> {
    let text = usual_folder(rt.alloc())?;
    let written = usual_answers(rt.alloc())?;
    expect(
        &rt,
        rt.alloc(),
        text.as_str(),
        Status::Done,
        written.as_str(),
    )
}

/// One of these words.
fn pick<'a>(words: &[&'a str], number: u64) -> &'a str {
    match words.get((number % 7) as usize) {
        Some(word) => word,
        None => "",
    }
}

/// A line that makes, moves, removes, consumes or pulls something.
fn random_line(alloc: Global, number: u64) -> Result<String, Fail> {
    let member = pick(&["a", "b", "c", "a", "b", "c", "b"], number);
    let other = pick(&["c", "a", "b", "c", "b", "a", "a"], number / 7);
    let path = pick(&["p", "q", "P", "r", "r/p", "r/q", "q/s"], number / 49);
    let to = pick(&["q", "s", "r/t", "Q", "p", "q/p", "r"], number / 343);
    let line = match number / 2401 % 8 {
        0 => format!(in alloc; "mkdir {member} {path}\n")?,
        1 => format!(in alloc; "put {member} {path} text {number}\n")?,
        2 => format!(in alloc; "put {member} {path} other\n")?,
        3 => format!(in alloc; "move {member} {path} {to}\n")?,
        4 => format!(in alloc; "remove {member} {path}\n")?,
        5 => format!(in alloc; "change {member} {path} {number}\n")?,
        6 => format!(in alloc; "pull {member} {other}\n")?,
        _ => format!(in alloc; "drain {member}\n")?,
    };
    Ok(line)
}

/// Lines of three members, by a generator of numbers, until each has what all have.
fn random_script(alloc: Global, seed: u64) -> Result<String, Fail> {
    let mut text = String::from_str(alloc, "member a primary\nmember b plain\nmember c plain\n")?;
    let mut x = seed;
    for _ in 0..120u64 {
        x = x
            .wrapping_mul(6_364_136_223_846_793_005)
            .wrapping_add(1_442_695_040_888_963_407);
        let line = random_line(alloc, x >> 32)?;
        text.push_str(line.as_str())?;
    }
    text.push_str("change a x 9\nchange b y 9\nchange c z 9\n")?;
    let circle = repeated(alloc, "pull b a\npull c b\npull a c\n", 3)?;
    text.push_str(circle.as_str())?;
    text.push_str("drain a\ndrain b\ndrain c\n")?;
    Ok(text)
}

/// What a script prints with the tree and the sums of a member behind it.
fn with_tree(alloc: Global, lines: &str, member: &str) -> Result<Vec<u8>, Fail> {
    let text = format!(in alloc; "{lines}tree {member}\nsums {member}\n")?;
    let (_, out) = super::script(alloc, text.as_bytes())?;
    Ok(Vec::from_slice(alloc, out.bytes())?)
}

#[test]
fn random_trees_round_the_circle(rt: HostRuntime) -> Result<(), Fail> {
    let alloc = rt.alloc();
    for seed in 0..20u64 {
        let text = random_script(alloc, seed)?;
        let first = with_tree(alloc, text.as_str(), "a")?;
        let second = with_tree(alloc, text.as_str(), "b")?;
        let third = with_tree(alloc, text.as_str(), "c")?;
        assert_eq!(rt; first.as_slice(), second.as_slice(), "{seed}");
        assert_eq!(rt; second.as_slice(), third.as_slice(), "{seed}");
    }
    Ok(())
}
