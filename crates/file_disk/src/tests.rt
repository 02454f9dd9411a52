use super::FileDisk;
use replica_journal::{Disk, Failed};
use std::fs;
use std::test::Fail;

#[test]
fn a_file_keeps_what_is_written(rt: HostRuntime) -> Result<(), Fail> {
    let name = "file_disk_test";
    let mut disk = FileDisk::make(&rt, name)?;
    let mut buf = [0; 4];
    assert!(rt; disk.write_at(0, b"abcd").is_ok() && disk.write_at(1, b"xy").is_ok());
    assert_eq!(rt; disk.sync(), Ok(()));
    assert_eq!(rt; disk.read_at(0, &mut buf), Ok(4));
    assert_eq!(rt; buf.as_slice(), b"axyd".as_slice());
    let _ = fs::remove_file(&rt, name);
    let mut none = FileDisk::make(&rt, "no/such/file")?;
    assert_eq!(rt; none.len(), Err(Failed));
    Ok(())
}
