ghost use Rattle.std.specs.Prelude.{◌≡◌, ◌<◌, IfOk, ◌≤◌, length, take};
ghost use Rattle.frs_disk.specs.Moments.{seen_now};
ghost use Rattle.frs_disk.specs.Sums.{HasSum};

use crate::{Failed, FrsDisk, Image, MemDisk, MemRack, Rack, ScriptDisk, cut_synced, write_synced};
use frs_base::Sum;
use sha1::Sha1;
use std::alloc::Global;
use std::process::Abort;
use std::test::Fail;

/// A disk with these bytes, all of them synced.
fn disk_of(alloc: Global, bytes: &[u8]) -> Result<MemDisk, Fail>
    ensures { IfOk result (λ disk. seen_now disk.states ≡ bytes.now) }
{
    let mut disk = MemDisk::new(alloc);
    disk.reserve(alloc, 2, bytes.len() as u64)?;
    write_synced(&mut disk, 0, bytes)?;
    Ok(disk)
}

/// Checks that the disk has these three bytes.
fn assert_has(rt: &impl Abort, disk: &mut MemDisk, want: &[u8; 3], row: usize) -> Result<(), Fail> {
    assert_eq!(rt; disk.length()?, 3, "in row {row}");
    let mut found = [0; 3];
    disk.read(0, &mut found)?;
    assert_eq!(rt; found.as_slice(), want.as_slice(), "in row {row}");
    Ok(())
}

#[test]
fn bytes_are_written_cut_and_read(rt: HostRuntime) -> Result<(), Fail> {
    let alloc = rt.alloc();
    let mut disk = disk_of(alloc, b"winter")?;
    disk.reserve(alloc, 4, 2)?;
    assert_eq!(rt; disk.length()?, 6);
    cut_synced(&mut disk, 3)?;
    write_synced(&mut disk, 0, b"go")?;
    assert_has(&rt, &mut disk, b"gon", 0)?;
    assert!(rt; !disk.found());
    Ok(())
}

/// The first four bytes of the disk, known by their beginning and their sum.
fn read_known(disk: &mut MemDisk, head: &[u8], sum: &Sum) -> Result<[u8; 4], Failed>
    requires known { HasSum head.now sum.now.0 (take 4 (seen_now disk.old.states)) }
    requires long { 4 ≤ length (seen_now disk.old.states) }
{
    let mut found = [0; 4];
    disk.read_sum(0, &mut found, head, sum)?;
    Ok(found)
}

#[test]
fn bytes_are_read_by_their_sum(rt: HostRuntime) -> Result<(), Fail> {
    let alloc = rt.alloc();
    let mut disk = disk_of(alloc, b"form")?;
    let sum = Sum(Sha1::digest(b"form"));
    let found = read_known(&mut disk, b"fo", &sum)?;
    assert_eq!(rt; found.as_slice(), b"form".as_slice());
    Ok(())
}

/// Writes over the disk, whose call of this number is armed, and checks what is left before and
/// after a crash.
fn check_stop(
    rt: &impl Abort,
    alloc: Global,
    disk: &mut MemDisk,
    call: u32,
    image: Image,
    want: &[u8; 3],
    row: usize,
) -> Result<(), Fail>
    requires { 0 < call }
{
    disk.reserve(alloc, 2, 3)?;
    let armed = disk.arm(call, image);
    let stopped = write_synced(disk, 0, b"new").is_err();
    assert!(rt; armed && stopped && disk.stopped(), "in row {row}");
    assert_has(rt, disk, want, row)?;
    assert!(rt; disk.crash(), "in row {row}");
    assert_has(rt, disk, want, row)?;
    assert_eq!(rt; (disk.faults(), disk.unarmed()), (1, 0), "in row {row}");
    Ok(())
}

#[test]
fn a_stop_leaves_the_armed_image(rt: HostRuntime) -> Result<(), Fail> {
    let alloc = rt.alloc();
    let rows = [
        (1, Image::With, b"new"),
        (1, Image::Without, b"old"),
        (2, Image::With, b"new"),
        (2, Image::Without, b"old"),
    ];
    for (row, (call, image, want)) in rows.iter().enumerate() {
        assert!(rt; *call > 0, "in row {row}");
        let mut disk = disk_of(alloc, b"old")?;
        check_stop(&rt, alloc, &mut disk, *call, *image, want, row)?;
    }
    Ok(())
}

/// Writes over the disk, whose call of this number is to fail, and checks what is left.
fn check_failure(
    rt: &impl Abort,
    alloc: Global,
    disk: &mut MemDisk,
    call: u32,
    want: &[u8; 3],
    row: usize,
) -> Result<(), Fail>
    requires { 0 < call }
{
    disk.reserve(alloc, 2, 3)?;
    let armed = disk.fail(call);
    let failed = write_synced(disk, 0, b"new").is_err();
    assert!(rt; armed && failed && !disk.stopped(), "in row {row}");
    assert_has(rt, disk, want, row)?;
    assert_eq!(rt; disk.faults(), 1, "in row {row}");
    Ok(())
}

#[test]
fn a_failing_call_leaves_all_as_it_was(rt: HostRuntime) -> Result<(), Fail> {
    let alloc = rt.alloc();
    for (row, (call, want)) in [(1, b"old"), (2, b"new")].iter().enumerate() {
        assert!(rt; *call > 0, "in row {row}");
        let mut disk = disk_of(alloc, b"old")?;
        check_failure(&rt, alloc, &mut disk, *call, want, row)?;
    }
    Ok(())
}

#[test]
fn a_disarmed_disk_does_not_fail(rt: HostRuntime) -> Result<(), Fail> {
    let alloc = rt.alloc();
    let mut disk = disk_of(alloc, b"old")?;
    disk.reserve(alloc, 2, 3)?;
    assert!(rt; disk.arm(1, Image::Without));
    disk.disarm();
    write_synced(&mut disk, 0, b"new")?;
    assert_has(&rt, &mut disk, b"new", 0)?;
    assert_eq!(rt; disk.faults(), 0);
    Ok(())
}

#[test]
fn a_rack_makes_empty_disks(rt: HostRuntime) -> Result<(), Fail> {
    let alloc = rt.alloc();
    let mut rack = MemRack::new();
    let mut disks = rack.make(alloc, 1)?;
    assert_eq!(rt; disks.book_a.length()?, 0);
    assert_eq!(rt; disks.stage.length()?, 0);
    rack.back(disks.vol_b);
    assert_eq!(rt; (rack.faults(), rack.found()), (0, 0));
    Ok(())
}
