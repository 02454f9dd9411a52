//! The records of a text, taken one by one.
ghost use Rattle.std.specs.Prelude.{◌≡◌, IfOk, IfSome};
ghost use Rattle.csv.specs.Reading.{records, default_config, strip_bom};
ghost use Rattle.machine_text.specs.Rows.{IsReading, IsNext, records_left};

use crate::fault::MachineFault;
use csv::{ByteRecord, ByteRecordsIntoIter, ReaderBuilder};
use std::alloc::{AllocError, Global};

/// The records of a text that are left.
pub(crate) type Rows<'a> = ByteRecordsIntoIter<&'a [u8]>;

/// All records of a text.
pub(crate) fn rows_of(alloc: Global, text: &[u8]) -> Rows<'_>
    ensures all { records_left result ≡ records default_config (strip_bom text.now) }
    ensures reading { IsReading result }
{
    ReaderBuilder::new()
        .has_headers(false)
        .flexible(true)
        .from_reader(alloc, text)
        .into_byte_records()
}

/// The next record, if there is one.
pub(crate) fn next_row(rows: &mut Rows) -> Result<Option<ByteRecord>, AllocError>
    requires { IsReading rows.old }
    ensures row { IfOk result (λ row. IsNext row (records_left rows.old) (records_left rows.new)) }
    ensures reading { IfOk result (λ row. IfSome row (λ _. IsReading rows.new)) }
{
    match rows.next() {
        None => Ok(None),
        Some(Ok(row)) => Ok(Some(row)),
        // Over a slice nothing but memory can fail.
        Some(Err(_)) => Err(AllocError),
    }
}
