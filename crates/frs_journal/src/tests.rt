ghost use Rattle.std.specs.Prelude.{◌≡◌, ◌<◌, []};

mod tape;

use crate::{ApplyFault, Journalled, LoadWhy, Slot};
use frs_base::ReservedVec;
use frs_disk::{FrsDisk, Image, MemDisk, ScriptDisk, write_synced};
use std::alloc::Global;
use std::test::Fail;
use tape::Tape;

/// The fresh slot: the header gate, the magic, generation 1, serial 0 and a closed gate.
const FRESH: [u8; 26] = [
    0x01, 0x46, 0x52, 0x53, 0x4a, 0x52, 0x4e, 0x30, 0x31, 0x01, 0, 0, 0, 0, 0, 0, 0, 0, 0, 0, 0, 0,
    0, 0, 0, 0,
];

/// A machine with no bytes.
fn empty_tape() -> Tape
    ensures { result.bytes.items ≡ [] }
{
    Tape {
        bytes: ReservedVec::empty(),
    }
}

/// The bytes of a disk.
fn bytes_of(alloc: Global, disk: &mut MemDisk) -> Result<Vec<u8>, Fail> {
    let length = disk.length()?;
    let mut bytes = vec![in alloc; 0; length as usize]?;
    disk.read(0, bytes.as_mut_slice())?;
    Ok(bytes)
}

/// A disk with these bytes, all of them synced.
fn disk_of(alloc: Global, bytes: &[u8]) -> Result<MemDisk, Fail> {
    let mut disk = MemDisk::new(alloc);
    disk.reserve(alloc, 2, bytes.len() as u64)?;
    write_synced(&mut disk, 0, bytes)?;
    Ok(disk)
}

/// A fresh journal.
fn journal(alloc: Global) -> Result<Journalled<Tape, MemDisk>, Fail> {
    let made = Journalled::fresh(
        alloc,
        empty_tape(),
        MemDisk::new(alloc),
        MemDisk::new(alloc),
    );
    Ok(made.map_err(|fault| fault.why)?)
}

/// How many bytes a journal has, after how many commands.
fn counts(journal: &Journalled<Tape, MemDisk>) -> (usize, u64) {
    (journal.state().bytes.as_slice().len(), journal.serial())
}

/// How many bytes, after how many commands, these bytes of slot a load to, with an empty slot b.
fn loaded(alloc: Global, bytes: &[u8]) -> Result<Option<(usize, u64)>, Fail> {
    let disk = disk_of(alloc, bytes)?;
    match Journalled::load(alloc, empty_tape(), disk, MemDisk::new(alloc)) {
        Ok(journal) => Ok(Some(counts(&journal))),
        Err(_) => Ok(None),
    }
}

/// Why these bytes of slot a, with an empty slot b, aren't loaded.
fn refusal(alloc: Global, bytes: &[u8]) -> Result<Option<LoadWhy>, Fail> {
    let loaded = Journalled::load(
        alloc,
        empty_tape(),
        disk_of(alloc, bytes)?,
        MemDisk::new(alloc),
    );
    Ok(loaded.err().map(|fault| fault.why))
}

/// The bytes of slot a of a journal, and how many slot b has.
fn slots_of(alloc: Global, journal: Journalled<Tape, MemDisk>) -> Result<(Vec<u8>, u64), Fail> {
    let (mut disk_a, mut disk_b) = journal.into_disks();
    Ok((bytes_of(alloc, &mut disk_a)?, disk_b.length()?))
}

/// A journal that was loaded from two empty disks.
fn loaded_from_nothing(alloc: Global) -> Result<Journalled<Tape, MemDisk>, Fail> {
    let loaded = Journalled::load(
        alloc,
        empty_tape(),
        MemDisk::new(alloc),
        MemDisk::new(alloc),
    );
    Ok(loaded.map_err(|fault| fault.why)?)
}

#[test]
fn fresh_slot(rt: HostRuntime) -> Result<(), Fail> {
    let alloc = rt.alloc();
    let (made, other) = slots_of(alloc, journal(alloc)?)?;
    assert_eq!(rt; made.as_slice(), FRESH.as_slice());
    assert_eq!(rt; other, 0);
    let (loaded, other) = slots_of(alloc, loaded_from_nothing(alloc)?)?;
    assert_eq!(rt; loaded.as_slice(), FRESH.as_slice());
    assert_eq!(rt; other, 0);
    Ok(())
}

#[test]
fn open_last_gate(rt: HostRuntime) -> Result<(), Fail> {
    let mut opened = FRESH;
    opened[25] = 1;
    let why = LoadWhy::Damaged {
        slot: Slot::A,
        offset: 25,
    };
    assert_eq!(rt; refusal(rt.alloc(), &opened)?, Some(why));
    Ok(())
}

#[test]
fn bad_magic(rt: HostRuntime) -> Result<(), Fail> {
    let mut other = FRESH;
    other[8] = 0x32;
    let why = LoadWhy::Damaged {
        slot: Slot::A,
        offset: 1,
    };
    assert_eq!(rt; refusal(rt.alloc(), &other)?, Some(why));
    Ok(())
}

#[test]
fn a_command_is_one_record(rt: HostRuntime) -> Result<(), Fail> {
    let alloc = rt.alloc();
    let mut journal = journal(alloc)?;
    journal.apply(alloc, 7)?;
    assert_eq!(rt; (journal.end(), journal.serial()), (33, 1));
    assert_eq!(rt; journal.state().bytes.as_slice(), [7].as_slice());
    let (mut disk_a, _) = journal.into_disks();
    let bytes = bytes_of(alloc, &mut disk_a)?;
    assert_eq!(rt; bytes.len(), 33);
    let record = &bytes.as_slice()[25..];
    assert_eq!(rt; record, [1, 2, 0, 0, 0, 0, 7, 0].as_slice());
    Ok(())
}

/// A slot after a checkpoint: serial 5, a count of saved commands, the commands 7 and 8, and a
/// closed gate.
fn counted_slot(alloc: Global, saved: u8) -> Result<Vec<u8>, Fail> {
    let mut bytes = Vec::from_slice(alloc, &FRESH[..17])?;
    bytes.extend_from_slice(&[5, 0, 0, 0, 0, 0, 0, 0])?;
    bytes.extend_from_slice(&[1, 9, 0, 0, 0, 0xff, saved, 0, 0, 0, 0, 0, 0, 0])?;
    bytes.extend_from_slice(&[1, 2, 0, 0, 0, 0, 7, 1, 2, 0, 0, 0, 0, 8, 0])?;
    Ok(bytes)
}

#[test]
fn a_count_says_how_many_commands_were_saved(rt: HostRuntime) -> Result<(), Fail> {
    let alloc = rt.alloc();
    for (saved, serial) in [(0, 7), (1, 6), (2, 5)] {
        let bytes = counted_slot(alloc, saved)?;
        let found = loaded(alloc, bytes.as_slice())?;
        assert_eq!(rt; found, Some((2, serial)), "with {saved} saved");
    }
    let why = LoadWhy::Damaged {
        slot: Slot::A,
        offset: 25,
    };
    let bytes = counted_slot(alloc, 3)?;
    assert_eq!(rt; refusal(alloc, bytes.as_slice())?, Some(why));
    Ok(())
}

/// Why two commands aren't taken of which the first one's call of this number is armed.
fn refusals(
    alloc: Global,
    journal: &mut Journalled<Tape, MemDisk>,
    call: u32,
    image: Option<Image>,
) -> Option<(ApplyFault, ApplyFault)>
    requires { 0 < call }
{
    let armed = match image {
        Some(image) => journal.arm(call, image),
        None => journal.fail(call),
    };
    if !armed {
        return None;
    }
    Some((
        journal.apply(alloc, 7).err()?,
        journal.apply(alloc, 8).err()?,
    ))
}

/// How many bytes, after how many commands, a journal loads to behind a crash.
fn reloaded(alloc: Global, journal: Journalled<Tape, MemDisk>) -> Option<(usize, u64)> {
    let (mut disk_a, disk_b) = journal.into_disks();
    let crashed = disk_a.crash();
    match Journalled::load(alloc, empty_tape(), disk_a, disk_b) {
        Ok(journal) if crashed => Some(counts(&journal)),
        _ => None,
    }
}

#[test]
fn each_call_of_a_commit_stops_or_fails(rt: HostRuntime) -> Result<(), Fail> {
    let alloc = rt.alloc();
    let rows = [
        (1, Some(Image::With), 0),
        (1, Some(Image::Without), 0),
        (1, None, 0),
        (2, Some(Image::With), 0),
        (2, Some(Image::Without), 0),
        (2, None, 0),
        (3, Some(Image::With), 1),
        (3, Some(Image::Without), 0),
        (3, None, 0),
        (4, Some(Image::With), 1),
        (4, Some(Image::Without), 0),
        (4, None, 1),
    ];
    let faults = Some((ApplyFault::DiskFault { count: 1 }, ApplyFault::Shut));
    for (row, (call, image, want)) in rows.iter().enumerate() {
        assert!(rt; *call > 0, "in row {row}");
        let mut journal = journal(alloc)?;
        assert_eq!(rt;
            refusals(alloc, &mut journal, *call, *image),
            faults,
            "in row {row}"
        );
        let found = reloaded(alloc, journal);
        assert_eq!(rt; found, Some((*want, *want as u64)), "in row {row}");
    }
    Ok(())
}
