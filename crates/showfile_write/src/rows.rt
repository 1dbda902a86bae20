// Rows of layouts and of sessions that are put into a file, sixteen bytes each.
ghost use Rattle.std.specs.Prelude.{◌≡◌, ◌*◌, ◌≤◌, length};
ghost use Rattle.showfile.specs.Bytes.{row_bytes, over};

use crate::bytes::put_four;
use showfile::rows::Row;

pub(crate) fn put_rows<R: Row>(b: &mut [u8], row: &[R])
    requires { length row.now * 16 ≤ length b.old }
    ensures { b.new ≡ over b.old 0 (row_bytes R.bytes row.now) }
{
    for (i, record) in row.iter().enumerate() {
        put_four(&mut b[i * 16..], record.words());
    }
}
