// What the words of a line spell: numbers, bytes, a show in memory, counts.
ghost use Rattle.std.specs.Prelude.{◌≤◌};

use parse::{part, parts};
use parse_numbers::{decimal, unhex};
use show::{Drive, Layout, Session, Show};

// A file or a note: no longer one is looked at, and any that is longer is refused for its length.
pub(crate) const BYTES: usize = 4096;

// ---- numbers

// That of the last word, where `back` is 1, of the one before it, where it is 2.
pub(crate) fn number_from_end(line: &[u8], back: usize) -> Option<u64> {
    let k = parts(line, b' ').checked_sub(back)?;
    decimal(part(line, b' ', k))
}

// Its last 32 bits: `as u32` asks for a proof that there are no more.
pub(crate) fn low(n: u64) -> u32 {
    (n % 4_294_967_296) as u32
}

// A number of 32 bits.
fn word_of(text: &[u8]) -> Option<u32> {
    u32::try_from(decimal(text)?).ok()
}

// Sixteen counts at most, with commas between; zeros where none is given.
pub(crate) fn counts_of(text: &[u8]) -> Option<[u32; 16]> {
    let mut counts = [0u32; 16];
    for (k, count) in text.split(|b| *b == b',').enumerate() {
        *counts.get_mut(k)? = word_of(count)?;
    }
    Some(counts)
}

// ---- a show in memory: a hundred numbers in fours, a semicolon between fours: the drive and the counts, eight layouts, sixteen sessions

// One pass over the text: `part` would go over it from its start for each four.
pub(crate) fn memory_of(text: &[u8]) -> Option<Show> {
    let mut fours = text.split(|b| *b == b';');
    let [block, cylinder, laid, playing] = four_of(fours.next()?)?;
    let mut show = Show::nothing();
    show.drive = Drive { block, cylinder };
    show.laid = laid as usize;
    show.playing = playing as usize;
    for i in 0..8 {
        show.layouts[i] = layout_of(four_of(fours.next()?)?);
    }
    for i in 0..16 {
        show.sessions[i] = session_of(four_of(fours.next()?)?);
    }
    fours.next().is_none().then_some(show)
}

fn four_of(text: &[u8]) -> Option<[u32; 4]> {
    let mut words = text.split(|b| *b == b',');
    let four = [
        word_of(words.next()?)?,
        word_of(words.next()?)?,
        word_of(words.next()?)?,
        word_of(words.next()?)?,
    ];
    words.next().is_none().then_some(four)
}

// These two are no `From`, which would have to stand in crate show, for this program alone.
fn layout_of([longest, track, time, rotation]: [u32; 4]) -> Layout {
    Layout {
        longest,
        track,
        time,
        rotation,
    }
}

fn session_of([rate, cushion, buffer, layout]: [u32; 4]) -> Session {
    Session {
        rate,
        cushion,
        buffer,
        layout,
    }
}

// ---- bytes in hex

pub(crate) fn is_hex(text: &[u8]) -> bool {
    unhex(text, &mut []).is_some()
}

// What a text spells; none of a dash. An array with its length: there is no heap.
#[derive(Clone, Copy)]
pub(crate) struct Bytes {
    room: [u8; BYTES],
    len: usize,
    ghost inside: { len ≤ 4096 },
}

impl Bytes {
    pub(crate) fn of(text: &[u8]) -> Bytes {
        let mut room = [0u8; BYTES];
        let len = unhex(text, &mut room).map_or(0, |n| n as usize);
        Bytes {
            room,
            len: len.min(BYTES),
        }
    }

    pub(crate) fn as_slice(&self) -> &[u8] {
        &self.room[..self.len]
    }
}
