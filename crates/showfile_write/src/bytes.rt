// Numbers that are put at the front of a part of a file, the lowest byte first.
ghost use Rattle.std.specs.Prelude.{◌≡◌, ◌≤◌, length};
ghost use Rattle.showfile.specs.Bytes.{word_bytes, half_bytes, over};
ghost use Rattle.showfile.specs.Rows.{bytes_of};

pub(crate) fn put_word(b: &mut [u8], v: u32)
    requires { 4 ≤ length b.old }
    ensures { b.new ≡ over b.old 0 (word_bytes v) }
{
    b[..4].copy_from_slice(&v.to_le_bytes());
}

pub(crate) fn put_half(b: &mut [u8], v: usize)
    requires { 2 ≤ length b.old }
    ensures { b.new ≡ over b.old 0 (half_bytes v) }
{
    b[..2].copy_from_slice(&v.to_le_bytes()[..2]);
}

pub(crate) fn put_four(b: &mut [u8], words: [u32; 4])
    requires { 16 ≤ length b.old }
    ensures { b.new ≡ over b.old 0 (bytes_of words) }
{
    let [p, q, r, s] = words;
    put_word(b, p);
    put_word(&mut b[4..], q);
    put_word(&mut b[8..], r);
    put_word(&mut b[12..], s);
}
