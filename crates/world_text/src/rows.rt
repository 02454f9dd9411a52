ghost use Rattle.std.specs.Prelude.{◌≡◌, map, IfOk};
ghost use Rattle.csv.specs.Records.{fields_of};

use csv::ByteRecord;
use std::alloc::{AllocError, Global};

/// The fields of a record, in order.
pub(crate) fn fields<'a>(alloc: Global, row: &'a ByteRecord) -> Result<Vec<&'a [u8]>, AllocError>
    ensures { IfOk result (λ v. map (λ f. f.now) v.items ≡ fields_of row.now) }
{
    let mut fields = Vec::new(alloc);
    for field in row.iter() {
        fields.push(field)?;
    }
    Ok(fields)
}
