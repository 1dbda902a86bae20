// Text taken apart: the parts between marks, and the names that words are. specs/ says what each answer is.
#![tactic(auto)]

ghost use Rattle.std.specs.Prelude.{◌≡◌, ◌≤◌, ◌+◌, length, take, drop};
ghost use Rattle.show.specs.Limits.{Tells};
ghost use Rattle.parse.specs.Parts.{find_of, parts_of, rest_of, part_of};
ghost use Rattle.parse.specs.Places.{PlaceIs};

// Where `mark` stands first in the text; its length where it does not. The second clause follows from the first: with it a caller takes that part.
// A number and no `Option`: `find_of`, which the contract names, is the length where there is none.
pub fn find(text: &[u8], mark: u8) -> usize
    ensures value { result ≡ find_of mark text.now }
    ensures upper_bound { result ≤ length text.now }
{
    text.iter().position(|b| *b == mark).unwrap_or(text.len())
}

// How many parts the marks make of the text: one more than there are marks.
// A `for` and no chain: `filter` and `count` take nearly twice the instructions a byte.
pub fn parts(text: &[u8], mark: u8) -> usize
    ensures { result ≡ parts_of mark text.now }
{
    let mut n = 1;
    for b in text {
        if *b == mark {
            n += 1;
        }
    }
    n
}

// Part k of the text, counted from 0, with `mark` between two parts; nothing where there are fewer.
#[tactic(auto, using(crate::proofs::PartLaws::part_none))]
pub fn part(text: &[u8], mark: u8, k: usize) -> &[u8]
    ensures { result.now ≡ part_of mark k text.now }
{
    text.split(|b| *b == mark).nth(k).unwrap_or(&[])
}

// Whether two texts are the same.
pub fn same(a: &[u8], b: &[u8]) -> bool
    ensures { Tells result (a.now ≡ b.now) }
{
    a == b
}

// Which of the names a word is, counted from 0: the names have one space between. How many names there are, where it is none of them:
// `PlaceIs`, which the contract names, says so of a number and no `Option`.
pub fn place_in(names: &[u8], word: &[u8]) -> usize
    ensures { PlaceIs names.now word.now result }
{
    names
        .split(|b| *b == b' ')
        .position(|name| name == word)
        .unwrap_or(parts(names, b' '))
}
