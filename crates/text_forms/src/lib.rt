// Texts by a form: numbers stand in decimal where the form has a #. Each call answers the place after what it put; where the text does not
// fit, no byte changes, and it answers the place that was given.
#![tactic(auto)]

pub mod hex;

ghost use Rattle.std.specs.Prelude.{◌≡◌, ◌∷◌, [], ◌+◌, ◌≤◌, length};
ghost use Rattle.show.specs.Limits.{Tells};
ghost use Rattle.text.specs.Puts.{put_over, put_to, FitsAt, Put};
ghost use Rattle.text_forms.specs.Forms.{form_text, piece_text, left_after};

use text::{put_numbered, put_word, width};

// A form with its numbers: each stands, in decimal, where the form has a #; once the numbers are used up nothing stands there.
pub fn put_form(out: &mut [u8], at: usize, form: &[u8], numbers: &[u64]) -> usize
    ensures out_after { out.new ≡ put_over out.old at (form_text form.now numbers.now) }
    ensures value { result ≡ put_to out.old at (form_text form.now numbers.now) }
{
    if !form_fits(out.len(), at, form, numbers) {
        return at;
    }
    put_pieces(out, at, form, numbers)
}

// Whether the text fits: the room that is left is counted down, so that no sum overflows.
fn form_fits(len: usize, at: usize, form: &[u8], numbers: &[u64]) -> bool
    ensures { Tells result (at + length (form_text form.now numbers.now) ≤ len) }
{
    if len < at {
        return false;
    }
    let mut room = len - at;
    let mut left = numbers;
    for b in form {
        let size = piece_size(*b, left);
        if room < size {
            return false;
        }
        room -= size;
        left = left_of(*b, left);
    }
    true
}

fn put_pieces(out: &mut [u8], at: usize, form: &[u8], numbers: &[u64]) -> usize
    requires { FitsAt out.old at (form_text form.now numbers.now) }
    ensures { Put out.old at (form_text form.now numbers.now) out.new result }
{
    let mut next = at;
    let mut left = numbers;
    for b in form {
        next = put_piece(out, next, *b, left);
        left = left_of(*b, left);
    }
    next
}

// One byte of the form, with the numbers that are left.
fn put_piece(out: &mut [u8], at: usize, b: u8, numbers: &[u64]) -> usize
    requires { FitsAt out.old at (piece_text b numbers.now) }
    ensures { Put out.old at (piece_text b numbers.now) out.new result }
{
    if b != b'#' {
        return put_word(out, at, &[b]);
    }
    match numbers.first() {
        Some(n) => put_numbered(out, at, b"", *n, b""),
        None => at,
    }
}

#[tactic(auto, using(crate::proofs::Forms::piece_cases))]
fn piece_size(b: u8, numbers: &[u64]) -> usize
    ensures { result ≡ length (piece_text b numbers.now) }
{
    if b != b'#' {
        return 1;
    }
    match numbers.first() {
        Some(n) => width(*n),
        None => 0,
    }
}

// The numbers that a byte of the form leaves: a # uses one up.
#[tactic(auto, using(crate::proofs::Forms::left_cases))]
fn left_of(b: u8, numbers: &[u64]) -> &[u64]
    ensures { result.now ≡ left_after b numbers.now }
{
    match numbers {
        [_, left @ ..] if b == b'#' => left,
        _ => numbers,
    }
}
