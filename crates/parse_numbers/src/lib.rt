// The numbers and bytes that a text spells. specs/ says what each answer is. Apart from `parse` for the gate's time alone.
#![tactic(auto)]

mod digits;

ghost use Rattle.std.specs.Prelude.{◌≡◌, ◌++◌, ◌≤◌, ◌+◌, length, take, drop};
ghost use Rattle.parse_numbers.specs.Numbers.{decimal_of};
ghost use Rattle.parse_numbers.specs.Bytes.{bytes_of, count_of, put_of};

use crate::digits::{longer, pair};

// The number below 2^64 that the text is in decimal digits, at least one and nothing else; leading zeros are allowed.
pub fn decimal(text: &[u8]) -> Option<u64>
    ensures { result ≡ decimal_of text.now }
{
    if text.is_empty() {
        return None;
    }
    let mut n = 0;
    for b in text {
        n = longer(n, *b)?;
    }
    Some(n)
}

// The bytes that the text is in hex, two digits each, of either case, into `out` from its first byte on: as many as there are, or as `out`
// has room for. Answers how many the text has, also where `out` has room for fewer; `None` where the text is empty, of odd length or has
// another character, and then `out` is as it was.
pub fn unhex(text: &[u8], out: &mut [u8]) -> Option<u64>
    ensures counted { result ≡ count_of (bytes_of text.now) }
    ensures put { out.new ≡ put_of (bytes_of text.now) out.old }
{
    let all = bytes(text)?;
    // Two by two and not by chunks: two slices go side by side. No 0 is put, since `bytes` found digits alone.
    for i in 0..all.min(out.len()) {
        out[i] = pair(text[2 * i], text[2 * i + 1]).unwrap_or(0);
    }
    Some(all as u64)
}

// How many bytes the text is in hex.
fn bytes(text: &[u8]) -> Option<usize>
    ensures { result ≡ count_of (bytes_of text.now) }
{
    let (pairs, rest) = text.as_chunks::<2>();
    if pairs.is_empty() || !rest.is_empty() {
        return None;
    }
    for [high, low] in pairs {
        pair(*high, *low)?;
    }
    Some(pairs.len())
}
