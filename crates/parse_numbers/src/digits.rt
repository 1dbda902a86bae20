// What one byte counts as a digit.
ghost use Rattle.std.specs.Prelude.{◌≡◌, Some};
ghost use Rattle.parse_numbers.specs.Numbers.{digit_of, longer_by, fitting};
ghost use Rattle.parse_numbers.specs.Bytes.{hex_of, byte_of};

// A byte is no `char`, which `to_digit` is of; and `hex_digit` has letters besides.
#[tactic(auto, using(crate::proofs::Values::counting))]
fn digit(b: u8) -> Option<u64>
    ensures { result ≡ digit_of b }
{
    match b {
        b'0'..=b'9' => Some((b - b'0') as u64),
        _ => None,
    }
}

// The number with one digit more, unless that is 2^64 or more.
#[tactic(auto, using(crate::proofs::Values::longer_cases))]
pub(crate) fn longer(n: u64, b: u8) -> Option<u64>
    ensures { result ≡ fitting (longer_by 10 (Some n) (digit_of b)) }
{
    let d = digit(b)?;
    n.checked_mul(10)?.checked_add(d)
}

// Of either case.
#[tactic(auto, using(crate::proofs::Values::counting))]
fn hex_digit(b: u8) -> Option<u8>
    ensures { result ≡ hex_of b }
{
    match b {
        b'0'..=b'9' => Some(b - b'0'),
        b'a'..=b'f' => Some(b - b'a' + 10),
        b'A'..=b'F' => Some(b - b'A' + 10),
        _ => None,
    }
}

// The byte of two digits of hex.
#[tactic(auto, using(crate::proofs::Pairs::hex_small), unfolding(crate::specs::Numbers::longer_by))]
pub(crate) fn pair(high: u8, low: u8) -> Option<u8>
    ensures { result ≡ byte_of high low }
{
    let upper = hex_digit(high)?;
    let lower = hex_digit(low)?;
    Some(16 * upper + lower)
}
