// What blob rows say by being read.
ghost use Rattle.std.specs.Prelude.{◌≡◌, true};
ghost use Rattle.std.specs.Ordering.{int_cmp};
ghost use Rattle.table.specs.Ranges.{floored, least_signed};
ghost use Rattle.segment.specs.Rows.{blob_key};

use segment::BlobRow;

// None of these rows' blobs lies below the least signed number. A blob that is read is a number of 64 bits, which of a list that is not read
// is not known; the loop does nothing else.
pub fn are_floored(rows: &[BlobRow])
    ensures { floored blob_key int_cmp rows.now least_signed ≡ true }
{
    for row in rows {
        let _blob = row.blob;
    }
}
