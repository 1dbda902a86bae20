// Bytes as text.
ghost use Rattle.std.specs.Prelude.{◌≡◌, ◌+◌, ◌≤◌, ◌<◌};
ghost use Rattle.show.specs.Limits.{Tells};
ghost use Rattle.text.specs.Puts.{put_over, put_to, FitsAt, Put};
ghost use Rattle.text_forms.specs.Hex.{hex_digit, pair_text, pairs_text, hex_text};

use text::put_word;

// Bytes in hex, two small digits each; a dash for none. No `write!`, as in crate text: what does not fit in whole is not put.
pub fn put_hex(out: &mut [u8], at: usize, bytes: &[u8]) -> usize
    ensures out_after { out.new ≡ put_over out.old at (hex_text bytes.now) }
    ensures value { result ≡ put_to out.old at (hex_text bytes.now) }
{
    if bytes.is_empty() {
        return put_word(out, at, b"-");
    }
    if !pairs_fit(out.len(), at, bytes.len()) {
        return at;
    }
    put_pairs(out, at, bytes)
}

// Whether two digits fit for each of n bytes: the room is counted down, so that no sum overflows. As `fits` of crate text, which is private.
fn pairs_fit(len: usize, at: usize, n: usize) -> bool
    ensures { Tells result (at + (n + n) ≤ len) }
{
    at <= len && n <= len - at && n <= len - at - n
}

fn put_pairs(out: &mut [u8], at: usize, bytes: &[u8]) -> usize
    requires { FitsAt out.old at (pairs_text bytes.now) }
    ensures { Put out.old at (pairs_text bytes.now) out.new result }
{
    let mut next = at;
    for b in bytes {
        next = put_pair(out, next, *b);
    }
    next
}

fn put_pair(out: &mut [u8], at: usize, b: u8) -> usize
    requires { FitsAt out.old at (pair_text b) }
    ensures { Put out.old at (pair_text b) out.new result }
{
    let high = digit(b / 16);
    let low = digit(b % 16);
    put_word(out, at, &[high, low])
}

#[tactic(auto, using(crate::proofs::Pairs::digit_cases))]
fn digit(d: u8) -> u8
    requires { d < 16 }
    ensures { result ≡ hex_digit d }
{
    if d < 10 {
        return b'0' + d;
    }
    b'a' + (d - 10)
}
