use std::io;

/// Writes two digits for each byte.
pub fn write_hex<R: Print>(rt: &R, bytes: &[u8]) -> io::Result<()> {
    for byte in bytes {
        print!(rt; "{byte:02x}")?;
    }
    Ok(())
}
