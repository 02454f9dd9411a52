//! A disk in memory and the record of one message, by hand.

ghost use Rattle.std.specs.Prelude.{◌≡◌, ◌<◌, length, IfOk};
ghost use Rattle.replica_journal.specs.Disk.{bytes_of};

use super::record::{AtGate, read_record};
use super::*;
use span_base::DeviceFault;
use std::alloc::{AllocError, Global};
use std::test::Fail;

/// The record of a Freeze of key 5 in epoch 7, with the gate behind it: of call 1 of proxy 3, in
/// its slot 2 of generation 1, in phase 4.
const RECORD: [u8; 22] = [
    1, 0, 18, 6, 3, 2, 0, 0, 0, 1, 0, 0, 0, 1, 4, 0, 5, 0, 0, 0, 7, 0,
];

#[test]
fn calls_fail_by_their_numbers(rt: HostRuntime) -> Result<(), Fail> {
    let alloc = rt.alloc();
    let mut disk = MemDisk::make(alloc, [2, 4].to_vec(alloc)?);
    disk.write_at(0, b"abc")?;
    assert_eq!(rt; disk.sync(), Err(Failed));
    assert_eq!(rt; disk.len(), Ok(3));
    assert_eq!(rt; disk.write_at(1, b"xyz"), Err(DeviceFault::Failed));
    disk.fail_in(2);
    assert_eq!(rt; disk.sync(), Ok(()));
    assert_eq!(rt; disk.len(), Err(Failed));
    assert_eq!(rt; disk.bytes(), b"axyz".as_slice());
    Ok(())
}

/// A disk with the one byte of an empty journal.
fn empty_journal(alloc: Global) -> Result<MemDisk, DeviceFault>
    ensures { IfOk result (λ disk. length (bytes_of disk.history) ≡ 1) }
{
    let mut disk = MemDisk::make(alloc, Vec::new(alloc));
    disk.write_at(0, &[0])?;
    disk.sync()?;
    Ok(disk)
}

/// The gate of the record, and how many bytes there are, where the append is stopped in a call.
fn stopped(alloc: Global, call: u64) -> Result<(bool, u8, usize), DeviceFault> {
    let mut disk = empty_journal(alloc)?;
    if call > 0 {
        disk.fail_in(call);
    }
    let done = append(&mut disk, 0, &RECORD[1..]).is_ok();
    match disk.bytes() {
        [gate, ..] => Ok((done, *gate, disk.bytes().len())),
        [] => Ok((done, 0, 0)),
    }
}

#[test]
fn the_gate_is_opened_last(rt: HostRuntime) -> Result<(), Fail> {
    let cases = [
        (1, (false, 0, 22)),
        (2, (false, 0, 22)),
        (3, (false, 1, 22)),
        (4, (false, 1, 22)),
        (0, (true, 1, 22)),
    ];
    for (call, left) in cases {
        assert_eq!(rt; stopped(rt.alloc(), call)?, left, "{call}");
    }
    Ok(())
}

/// What stands at the gate, in the journal of a replica with 6 keys: a record, the journal's end,
/// or an open gate with too few bytes or wrong ones behind it.
fn found(alloc: Global, bytes: &[u8]) -> Result<u8, AllocError>
    requires { 0 < length bytes.now }
{
    Ok(match read_record(alloc, bytes, 6)? {
        Some(AtGate::Record { .. }) => b'r',
        Some(AtGate::Closed) => b'c',
        Some(AtGate::Damaged) => b'd',
        None => b's',
    })
}

/// Turns over the first bit of the byte at this place.
fn turn_over(bytes: &mut [u8], place: usize) {
    if let Some(byte) = bytes.get_mut(place) {
        *byte ^= 128;
    }
}

#[test]
fn a_record_is_read_whole_or_not_at_all(rt: HostRuntime) -> Result<(), Fail> {
    let alloc = rt.alloc();
    for len in 1..22 {
        assert_eq!(rt; found(alloc, &RECORD[..len])?, b's', "{len}");
    }
    // The first bit of a byte is turned over: of the gate, the length, the kind, the proxy, the
    // phase, the key, the epoch and the next gate.
    let cases = [
        (0, b'c'),
        (1, b's'),
        (2, b's'),
        (3, b'd'),
        (4, b'd'),
        (14, b'r'),
        (15, b'd'),
        (16, b'd'),
        (17, b'r'),
        (21, b'r'),
    ];
    for (place, told) in cases {
        let mut record = RECORD;
        turn_over(&mut record, place);
        assert_eq!(rt; found(alloc, &record)?, told, "{place}");
    }
    Ok(())
}

/// A disk with these bytes, all safe, of which the next call of this number fails, none for 0.
fn holding(alloc: Global, bytes: &[u8], call: u64) -> Result<MemDisk, DeviceFault> {
    let mut disk = MemDisk::make(alloc, Vec::new(alloc));
    disk.write_at(0, bytes)?;
    disk.sync()?;
    if call > 0 {
        disk.fail_in(call);
    }
    Ok(disk)
}

/// The end of the journal that these bytes are, and how many records it has.
fn opened(
    alloc: Global,
    bytes: &[u8],
    call: u64,
) -> Result<Result<(u64, u64), OpenCause>, DeviceFault> {
    let mut disk = holding(alloc, bytes, call)?;
    Ok(match open_journal(alloc, &mut disk, 5, 6) {
        Ok(Opened { place, .. }) => Ok((place.gate, place.records)),
        Err(cause) => Err(cause),
    })
}

/// Two records, and the gate behind them.
fn two_records(alloc: Global) -> Result<Vec<u8>, AllocError>
    ensures { IfOk result (λ bytes. length bytes.items ≡ 43) }
{
    let mut bytes = Vec::new(alloc);
    bytes.extend_from_slice(&RECORD[..21])?;
    bytes.extend_from_slice(&RECORD)?;
    Ok(bytes)
}

/// Ten records, and the gate behind them.
fn ten_records(alloc: Global) -> Result<Vec<u8>, AllocError> {
    let mut bytes = Vec::new(alloc);
    for _ in 0..9 {
        bytes.extend_from_slice(&RECORD[..21])?;
    }
    bytes.extend_from_slice(&RECORD)?;
    Ok(bytes)
}

#[test]
fn a_front_of_a_journal_is_told_by_its_place(rt: HostRuntime) -> Result<(), Fail> {
    let alloc = rt.alloc();
    for len in 2..211 {
        let mut journal = ten_records(alloc)?;
        journal.truncate(len);
        let place = (len as u64 - 1) / 21 * 21;
        let told = Err(OpenCause::Damaged { at: place });
        assert_eq!(rt; opened(alloc, journal.as_slice(), 0)?, told, "{len}");
    }
    assert_eq!(rt; opened(alloc, &[1], 0)?, Ok((0, 0)));
    assert_eq!(rt;
        opened(alloc, ten_records(alloc)?.as_slice(), 0)?,
        Ok((210, 10))
    );
    Ok(())
}

#[test]
fn damage_is_told_by_its_place(rt: HostRuntime) -> Result<(), Fail> {
    let alloc = rt.alloc();
    let damaged = Err(OpenCause::Damaged { at: 21 });
    // The first bit of a byte of the second record is turned over: of its gate, its length, its
    // kind, its phase, its key and the gate behind it.
    let cases = [
        (21, Ok((21, 1))),
        (22, damaged),
        (23, damaged),
        (24, damaged),
        (35, Ok((42, 2))),
        (36, damaged),
        (42, Ok((42, 2))),
    ];
    for (place, told) in cases {
        let mut journal = two_records(alloc)?;
        turn_over(journal.as_mut_slice(), place);
        assert_eq!(rt; opened(alloc, &journal, 0)?, told, "{place}");
    }
    Ok(())
}

#[test]
fn an_opening_fails_with_its_disk(rt: HostRuntime) -> Result<(), Fail> {
    // It syncs, asks for the length, writes the gate, syncs, reads the gate and reads the end.
    for call in 1..7 {
        assert_eq!(rt;
            opened(rt.alloc(), &[], call)?,
            Err(OpenCause::DiskFault),
            "{call}"
        );
    }
    assert_eq!(rt; opened(rt.alloc(), &[], 7)?, Ok((0, 0)));
    Ok(())
}
