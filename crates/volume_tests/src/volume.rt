use frs_base::{Bytes, Kind, List, Name, Sum, database_of};
use std::alloc::Global;
use std::process::Abort;
use std::test::Fail;
use vol_state::{LocalOp, Object, Refused, VolCmd, Volume};

fn name_of(alloc: Global, text: &str) -> Result<Name, Fail> {
    let mut units = Vec::new(alloc);
    for byte in text.as_bytes() {
        units.push(u16::from(*byte))?;
    }
    Ok(Name::from_units(alloc, &units)?)
}

/// The names between slashes; no text is no name.
fn path_of(alloc: Global, text: &str) -> Result<List<Name>, Fail> {
    let mut names = Vec::new(alloc);
    if !text.is_empty() {
        for part in text.split('/') {
            names.push(name_of(alloc, part)?)?;
        }
    }
    Ok(List::of(names))
}

/// The operation of a row: a put, a mkdir, a move or a remove.
fn operation(alloc: Global, word: &str, from: &str, to: &str) -> Result<LocalOp, Fail> {
    let path = path_of(alloc, from)?;
    if word == "put" {
        let bytes = Bytes::of(Vec::from_slice(alloc, to.as_bytes())?);
        return Ok(LocalOp::Put { path, bytes });
    }
    if word == "mkdir" {
        return Ok(LocalOp::Mkdir { path });
    }
    if word == "move" {
        let to = path_of(alloc, to)?;
        return Ok(LocalOp::Move { from: path, to });
    }
    Ok(LocalOp::Remove { path })
}

/// The command of an operation, or why it is refused.
fn command(volume: &Volume, op: LocalOp) -> Result<Result<VolCmd, Refused>, Fail> {
    if let Err(refused) = volume.check(&op) {
        return Ok(Err(refused));
    }
    let cmd = match op {
        LocalOp::Put { path, bytes } => volume.put(path.as_slice(), bytes.into_vec())?,
        LocalOp::Mkdir { path } => volume.mkdir(path.as_slice())?,
        LocalOp::Move { from, to } => volume.move_to(from.as_slice(), to.as_slice())?,
        LocalOp::Remove { path } => volume.remove(path.as_slice()),
    };
    Ok(Ok(cmd))
}

/// Does an operation, or says why it is refused.
fn done(alloc: Global, volume: &mut Volume, op: LocalOp) -> Result<Option<Refused>, Fail> {
    match command(volume, op)? {
        Err(refused) => Ok(Some(refused)),
        Ok(cmd) => {
            let ready = volume.ready(alloc, cmd)?;
            volume.take(ready);
            Ok(None)
        }
    }
}

fn is_file_of(o: &Object, parent: u64, name: &Name, bytes: &[u8]) -> bool {
    match &o.place {
        None => false,
        Some((at, own)) => {
            *at == parent && own == name && o.kind == Kind::File && o.bytes.as_slice() == bytes
        }
    }
}

// Each row: an operation, its path, its text or second path, and what comes of it; `-` is nothing.

/// At the root: no component, matching names, and a file on the way.
const AT_THE_ROOT: &str = "put - 1 NoPath
mkdir - - NoPath
move - a NoPath
remove - - NoPath
put a 1 done
put A 22 done
mkdir a - NameTaken
mkdir A - NameTaken
put a/b 1 NotDirectory
mkdir a/b - NotDirectory
put d/x 1 NoPath";

/// In a directory: the first component that is missing or a file decides.
const IN_A_DIRECTORY: &str = "mkdir d - done
put d 1 NameTaken
put D 1 NameTaken
put d/x 3 done
mkdir D/e - done
put d/E/f 4 done
put d/q/f 1 NoPath
put d/x/f 1 NotDirectory
put q/d/f 1 NoPath
mkdir a/q/f - NotDirectory";

/// Removals, and moves of which all of `from` is looked at before `to`.
const FROM_AND_TO: &str = "remove d - NotEmpty
remove d/e - NotEmpty
remove q - NoPath
remove d/q - NoPath
remove a/q - NotDirectory
move q z NoPath
move a/q z NotDirectory
move a - NoPath
move a q/z NoPath
move a a/z NotDirectory
move d/x a/z NotDirectory
move q/z a/z NoPath
move a/q q/z NotDirectory";

/// Moves into and beneath itself, also where the name there is taken, onto a matching name, onto
/// itself, and to another spelling of its own name.
const ONTO_AND_BENEATH: &str = "move d d/z Looped
move d d/e/z Looped
move d D/E/F Looped
move a d NameTaken
move a D/X NameTaken
move d/e d/x NameTaken
move d d done
move d/x d/x done
move d/x d/X done";

/// What moved is found where it is, and no longer where it was.
const AFTER_MOVES: &str = "move d/e g done
put g/f 55 done
put d/e/f 1 NoPath
remove g/f - done
remove G - done
remove g - NoPath
move a d/a done
move d/A b done";

/// The refusal of a row.
fn refusal(word: &str) -> Option<Refused> {
    if word == "NoPath" {
        return Some(Refused::NoPath);
    }
    if word == "NotDirectory" {
        return Some(Refused::NotDirectory);
    }
    if word == "Looped" {
        return Some(Refused::Looped);
    }
    if word == "NameTaken" {
        return Some(Refused::NameTaken);
    }
    if word == "NotEmpty" {
        return Some(Refused::NotEmpty);
    }
    None
}

/// A word of a row.
fn word_of(word: Option<&str>) -> &str {
    match word {
        None => "",
        Some(text) => { if text == "-" { "" } else { text } }
    }
}

fn try_rows(rt: &impl Abort, alloc: Global, volume: &mut Volume, rows: &str) -> Result<(), Fail> {
    for row in rows.split('\n') {
        let mut words = row.split(' ');
        let word = word_of(words.next());
        let from = word_of(words.next());
        let to = word_of(words.next());
        let op = operation(alloc, word, from, to)?;
        let wanted = refusal(word_of(words.next()));
        assert_eq!(rt; done(alloc, volume, op)?, wanted, "{row}");
    }
    Ok(())
}

/// A file `b` at the root, a directory with the number 2, and a file `X` in it.
fn are_left(alloc: Global, volume: &Volume) -> Result<bool, Fail> {
    let (b, x) = (name_of(alloc, "b")?, name_of(alloc, "X")?);
    let [first, directory, last] = volume.objects() else {
        return Ok(false);
    };
    Ok(
        is_file_of(first, 0, &b, b"22")
            && directory.kind == Kind::Directory
            && directory.fid == 2
            && is_file_of(last, 2, &x, b"3"),
    )
}

/// Tries all rows of operations, and looks at what they left.
fn try_table(rt: &impl Abort, alloc: Global, volume: &mut Volume) -> Result<(), Fail> {
    try_rows(rt, alloc, volume, AT_THE_ROOT)?;
    try_rows(rt, alloc, volume, IN_A_DIRECTORY)?;
    try_rows(rt, alloc, volume, FROM_AND_TO)?;
    try_rows(rt, alloc, volume, ONTO_AND_BENEATH)?;
    try_rows(rt, alloc, volume, AFTER_MOVES)?;
    assert!(rt; are_left(alloc, volume)?);
    // Fifteen rows were done, from USN 9 on.
    assert_eq!(rt; volume.next_usn(), 24);
    Ok(())
}

// A test that owns a volume lends it to one function: each early return past an owned volume makes
// the proof of the test much longer.

#[test]
fn a_table_of_operations_and_refusals(rt: HostRuntime) -> Result<(), Fail> {
    let mut volume = Volume::new(database_of(1));
    try_table(&rt, rt.alloc(), &mut volume)
}

/// What `sha1sum` says of the form of a file with the contents `hi`.
const HI_SUM: Sum = Sum([
    0x23, 0x3d, 0x31, 0x19, 0xee, 0xf9, 0x4b, 0x3c, 0x5d, 0x27, 0x9f, 0xb6, 0xf3, 0x96, 0x0f, 0xbb,
    0x04, 0xc7, 0x1c, 0xb0,
]);

/// What `sha1sum` says of the form of a file with no contents.
const EMPTY_SUM: Sum = Sum([
    0x09, 0xe7, 0x17, 0x68, 0x28, 0x4d, 0xae, 0x92, 0x8d, 0x5b, 0xad, 0x02, 0x58, 0x1d, 0xe9, 0x6e,
    0xf2, 0xd9, 0x82, 0x69,
]);

/// A file that is made, one that is put over, and a directory.
const FOR_THEIR_SUMS: &str = "put a hi done
put b longer done
put B - done
mkdir d - done";

/// The sum of the object with this number.
fn sum_at(volume: &Volume, fid: u64) -> Option<Sum> {
    match volume.object_at(fid) {
        None => None,
        Some(o) => Some(o.sum),
    }
}

/// Makes files and a directory, and looks at their sums.
fn try_sums(rt: &impl Abort, alloc: Global, volume: &mut Volume) -> Result<(), Fail> {
    try_rows(rt, alloc, volume, FOR_THEIR_SUMS)?;
    assert!(rt; sum_at(volume, 1) == Some(HI_SUM));
    assert!(rt; sum_at(volume, 2) == Some(EMPTY_SUM));
    assert!(rt; sum_at(volume, 3) == Some(Sum([0; 20])));
    Ok(())
}

#[test]
fn files_have_the_sums_of_their_forms(rt: HostRuntime) -> Result<(), Fail> {
    let mut volume = Volume::new(database_of(1));
    try_sums(&rt, rt.alloc(), &mut volume)
}

/// Puts this many bytes, or says why that is refused.
fn put_sized(
    alloc: Global,
    volume: &mut Volume,
    text: &str,
    count: usize,
) -> Result<Option<Refused>, Fail> {
    let bytes = Bytes::of(vec![in alloc; 7; count]?);
    let path = path_of(alloc, text)?;
    done(alloc, volume, LocalOp::Put { path, bytes })
}

/// Puts as many bytes as a file may have, and then one more, wherever the path leads.
fn try_sizes(rt: &impl Abort, alloc: Global, volume: &mut Volume) -> Result<(), Fail> {
    let most = put_sized(alloc, volume, "a", 1_048_576)?;
    assert_eq!(rt; most, None);
    for text in ["a", "", "q/a", "a/a"] {
        let more = put_sized(alloc, volume, text, 1_048_577)?;
        assert_eq!(rt; more, Some(Refused::TooLarge { length: 1_048_577 }));
    }
    Ok(())
}

#[test]
fn contents_may_have_1_048_576_bytes(rt: HostRuntime) -> Result<(), Fail> {
    let mut volume = Volume::new(database_of(1));
    try_sizes(&rt, rt.alloc(), &mut volume)
}

/// Does the operation of a row, or says why it is refused.
fn tried(
    alloc: Global,
    volume: &mut Volume,
    word: &str,
    from: &str,
    to: &str,
) -> Result<Option<Refused>, Fail> {
    done(alloc, volume, operation(alloc, word, from, to)?)
}

/// Makes a directory in a directory, 63 deep, and answers the path of one more.
fn nest(rt: &impl Abort, alloc: Global, volume: &mut Volume) -> Result<String, Fail> {
    let mut text = String::from_str(alloc, "d")?;
    for _ in 0..63 {
        assert_eq!(rt; tried(alloc, volume, "mkdir", text.as_str(), "")?, None);
        text.push_str("/d")?;
    }
    Ok(text)
}

/// Puts a file at this path, and moves the first directory there.
fn try_deep(rt: &impl Abort, alloc: Global, volume: &mut Volume, deep: &str) -> Result<(), Fail> {
    let put = tried(alloc, volume, "put", deep, "deep")?;
    assert_eq!(rt; put, None);
    let moved = tried(alloc, volume, "move", "d", deep)?;
    assert_eq!(rt; moved, Some(Refused::Looped));
    assert_eq!(rt; volume.objects().len(), 64);
    Ok(())
}

/// Tries a path of 64 components.
fn try_depth(rt: &impl Abort, alloc: Global, volume: &mut Volume) -> Result<(), Fail> {
    let text = nest(rt, alloc, volume)?;
    try_deep(rt, alloc, volume, text.as_str())
}

#[test]
fn a_path_may_have_64_components(rt: HostRuntime) -> Result<(), Fail> {
    let mut volume = Volume::new(database_of(1));
    try_depth(&rt, rt.alloc(), &mut volume)
}

#[test]
fn refusals_say_why(rt: HostRuntime) -> Result<(), Fail> {
    let alloc = rt.alloc();
    let rows = [
        (
            Refused::TooLarge { length: 1_048_577 },
            "1048577 bytes are too many for a file",
        ),
        (Refused::NoPath, "no such path"),
        (Refused::NotDirectory, "a file in place of a directory"),
        (Refused::Looped, "a directory can't be moved into itself"),
        (Refused::NameTaken, "the name is taken"),
        (Refused::NotEmpty, "the directory isn't empty"),
    ];
    for (refused, text) in rows {
        assert_eq!(rt; refused.to_string(alloc)?.as_str(), text);
    }
    Ok(())
}
