// Scripts whose lines pull.
use super::{expect, expect_bad};
use crate::status::Status;
use std::test::Fail;

#[test]
fn the_first_run(rt: HostRuntime) -> Result<(), Fail> {
    expect(
        &rt,
        rt.alloc(),
        "member a primary\nmember b plain\nchange a x 100\npull b a\nshow b\n",
        Status::Done,
        "ok\nok\nupdate a:9\npulled 1\nvector a:9..10\na:9 a:9 f live root x 2 100 100\n",
    )
}

#[test]
fn pulls_that_are_refused(rt: HostRuntime) -> Result<(), Fail> {
    expect(
        &rt,
        rt.alloc(),
        "pull a a\nmember a plain\npull a a\npull z a\npull a z\npull z z\npull y z\nshow a\n",
        Status::Done,
        "refused 1 unknown a\nok\nrefused 18 self\nrefused 1 unknown z\nrefused 1 unknown z\n\
         refused 1 unknown z\nrefused 1 unknown y\nvector empty\n",
    )
}

#[test]
fn three_members_round_the_circle(rt: HostRuntime) -> Result<(), Fail> {
    expect(
        &rt,
        rt.alloc(),
        "member a primary\nmember b plain\nmember c plain\n\
         change a x 100\nchange b y 50\nchange c z 70\nchange a x 90\n\
         pull b a\npull c b\npull a c\npull b a\npull c b\npull a c\n\
         show a\nshow b\nshow c\n",
        Status::Done,
        "ok\nok\nok\nupdate a:9\nupdate b:9\nupdate c:9\nupdate a:10\n\
         pulled 1\npulled 2\npulled 2\npulled 1\npulled 0\npulled 0\n\
         vector a:9..11 b:9..10 c:9..10\na:9 a:10 f live root x 2 101 100\n\
         b:9 b:9 f live root y 1 50 50\nc:9 c:9 f live root z 1 70 70\n\
         vector a:9..11 b:9..10 c:9..10\na:9 a:10 f live root x 2 101 100\n\
         b:9 b:9 f live root y 1 50 50\nc:9 c:9 f live root z 1 70 70\n\
         vector a:9..11 b:9..10 c:9..10\na:9 a:10 f live root x 2 101 100\n\
         b:9 b:9 f live root y 1 50 50\nc:9 c:9 f live root z 1 70 70\n",
    )
}

#[test]
fn trees_round_the_circle(rt: HostRuntime) -> Result<(), Fail> {
    let alloc = rt.alloc();
    let lines = "member a primary\nmember b plain\nmember c plain\n\
         mkdir a d\nput a d/x one\nconsume a 10\nconsume a 11\n\
         mkdir b e\nconsume b 12\nput b e/y two\nput b z three\nconsume b 13\nconsume b 14\n\
         remove b z\nconsume b 15\nput c w four\nconsume c 20\nmove c w v\nconsume c 21\n\
         pull b a\npull c b\npull a c\npull b a\npull c b\npull a c\n";
    let written = "ok\nok\nok\nusn 9\nusn 10\nupdate a:9\nupdate a:10\n\
         usn 9\nupdate b:9\nusn 10\nusn 11\nupdate b:10\nupdate b:11\n\
         usn 12\nupdate b:12\nusn 9\nupdate c:9\nusn 10\nupdate c:10\n\
         pulled 2\npulled 5\npulled 4\npulled 1\npulled 0\npulled 0\n\
         vector a:9..11 b:9..13 c:9..11\n\
         a:9 a:9 d live root d 2 10 10\na:10 a:10 f live a:9 x 2 11 11\n\
         b:9 b:9 d live root e 1 12 12\nb:10 b:10 f live b:9 y 1 13 13\n\
         b:11 b:12 f gone root z 1 15 14\nc:9 c:10 f live root v 1 21 20\n";
    for name in ["a", "b", "c"] {
        let text = format!(in alloc; "{lines}show {name}\n")?;
        expect(&rt, alloc, text.as_str(), Status::Done, written)?;
    }
    Ok(())
}

#[test]
fn a_pull_ends_the_initial_phase(rt: HostRuntime) -> Result<(), Fail> {
    expect(
        &rt,
        rt.alloc(),
        "member a plain\nmember b plain\nchange a w 4\npull a b\nchange a x 5\nchange b y 6\nshow a\nshow b\n",
        Status::Done,
        "ok\nok\nupdate a:9\npulled 0\nupdate a:10\nupdate b:9\n\
         vector a:9..11\na:9 a:9 f live root w 1 4 4\na:10 a:10 f live root x 3 5 5\n\
         vector b:9..10\nb:9 b:9 f live root y 1 6 6\n",
    )
}

#[test]
fn a_later_change_takes_the_place_of_the_pulled_one(rt: HostRuntime) -> Result<(), Fail> {
    expect(
        &rt,
        rt.alloc(),
        "member a primary\nmember b plain\nchange a x 100\npull b a\nchange a x 7\nchange a y 8\npull b a\npull b a\nshow b\n",
        Status::Done,
        "ok\nok\nupdate a:9\npulled 1\nupdate a:10\nupdate a:11\npulled 2\npulled 0\n\
         vector a:9..12\na:9 a:10 f live root x 2 101 100\na:11 a:11 f live root y 2 8 8\n",
    )
}

#[test]
fn an_older_version_is_passed_over(rt: HostRuntime) -> Result<(), Fail> {
    expect(
        &rt,
        rt.alloc(),
        "member a plain\nmember b plain\nmember c plain\nchange a x 1\npull c a\nchange a x 2\n\
         pull b a\npull b c\nshow b\nshow c\npull c b\nshow c\n",
        Status::Done,
        "ok\nok\nok\nupdate a:9\npulled 1\nupdate a:10\npulled 1\npulled 0\n\
         vector a:9..11\na:9 a:10 f live root x 1 2 1\n\
         vector a:9..10\na:9 a:9 f live root x 1 1 1\npulled 1\n\
         vector a:9..11\na:9 a:10 f live root x 1 2 1\n",
    )
}

#[test]
fn pull_lines_outside_the_grammar(rt: HostRuntime) -> Result<(), Fail> {
    for text in [
        "pull\n",
        "pull a\n",
        "pull a \n",
        "pull a B\n",
        "pull a b c\n",
        "pull abcdefghi a\n",
        "pull a abcdefghi\n",
        "Pull a b\n",
    ] {
        expect_bad(&rt, rt.alloc(), text.as_bytes(), 1)?;
    }
    Ok(())
}
