// Text put into a lent buffer at a place. Each call answers the place after what it put; where the text does not fit, no byte
// changes, and it answers the place that was given.
// `out` and `at` always go together, but no record has both: the contracts of put_word, put_numbered and put_paired name each of them.
#![tactic(auto)]

ghost use Rattle.std.specs.Prelude.{◌≡◌, ◌∷◌, ◌++◌, [], ◌+◌, ◌≤◌, ◌<◌, length};
ghost use Rattle.show.specs.Limits.{Tells};
ghost use Rattle.text.specs.Decimal.{decimal};
ghost use Rattle.text.specs.Lines.{paired};
ghost use Rattle.text.specs.Puts.{put_over, put_to, FitsAt, Put};

// A word.
pub fn put_word(out: &mut [u8], at: usize, word: &[u8]) -> usize
    ensures out_after { out.new ≡ put_over out.old at word.now }
    ensures value { result ≡ put_to out.old at word.now }
{
    if !fits(out.len(), at, word.len(), 0, 0) {
        return at;
    }
    put_bytes(out, at, word)
}

// A number in decimal, with what stands before it and after it.
pub fn put_numbered(out: &mut [u8], at: usize, before: &[u8], n: u64, after: &[u8]) -> usize
    ensures out_after { out.new ≡ put_over out.old at (before.now ++ (decimal n ++ after.now)) }
    ensures value { result ≡ put_to out.old at (before.now ++ (decimal n ++ after.now)) }
{
    let digits = width(n);
    if !fits(out.len(), at, before.len(), digits, after.len()) {
        return at;
    }
    let number = put_bytes(out, at, before);
    let end = put_decimal(out, number, digits, n);
    put_bytes(out, end, after)
}

// Two numbers in decimal, with what stands before, between and after them.
pub fn put_paired(
    out: &mut [u8],
    at: usize,
    before: &[u8],
    a: u64,
    between: &[u8],
    b: u64,
    after: &[u8],
) -> usize
    ensures out_after { out.new ≡ put_over out.old at (paired before.now a between.now b after.now) }
    ensures value { result ≡ put_to out.old at (paired before.now a between.now b after.now) }
{
    let len = out.len();
    let digits = width(a);
    if !fits(len, at, before.len(), digits, between.len()) {
        return at;
    }
    let half = at + (before.len() + (digits + between.len()));
    if !fits(len, half, width(b), after.len(), 0) {
        return at;
    }
    let next = put_numbered(out, at, before, a, between);
    put_numbered(out, next, b"", b, after)
}

// Whether three texts fit from `at` on, one after the other. No `write!` and no `Display`: what does not fit in whole is not put at all, as
// `put_over` in the contracts says.
fn fits(len: usize, at: usize, first: usize, second: usize, third: usize) -> bool
    ensures { Tells result (at + (first + (second + third)) ≤ len) }
{
    at <= len
        && first <= len - at
        && second <= len - at - first
        && third <= len - at - first - second
}

// How many digits a number has; 0 has one, as 1 does.
pub fn width(n: u64) -> usize
    ensures { result ≡ length (decimal n) }
{
    n.max(1).ilog10() as usize + 1
}

fn put_bytes(out: &mut [u8], at: usize, word: &[u8]) -> usize
    requires { FitsAt out.old at word.now }
    ensures { Put out.old at word.now out.new result }
{
    // No `copy_from_slice`: it is a call of memmove, and the archive for C uses memcpy and memset alone.
    for (i, b) in word.iter().enumerate() {
        out[at + i] = *b;
    }
    at + word.len()
}

// The digits of a number, backwards from where they end. No `Display`, as is said at `fits`.
fn put_decimal(out: &mut [u8], at: usize, digits: usize, n: u64) -> usize
    requires fits_at { FitsAt out.old at (decimal n) }
    requires digits_value { digits ≡ length (decimal n) }
    ensures { Put out.old at (decimal n) out.new result }
{
    let end = at + digits;
    let mut left = n;
    for i in (at + 1..end).rev() {
        out[i] = b'0' + (left % 10) as u8;
        left /= 10;
    }
    out[at] = b'0' + left as u8;
    end
}
