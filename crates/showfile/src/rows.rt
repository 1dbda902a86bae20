// Rows of layouts and of sessions, sixteen bytes each.
ghost use Rattle.std.specs.Prelude.{◌≡◌, ◌*◌, ◌≤◌, ℕ, List, [], length};
ghost use Rattle.show.specs.Lists.{padded};
ghost use Rattle.showfile.specs.Bytes.{row_of};
ghost use Rattle.showfile.specs.Rows.{words_of, bytes_of};
ghost use Rattle.showfile.specs.File.{layout_of, layout_bytes, session_of, session_bytes};

use crate::bytes::get_word;
use show::{Layout, Session};

// A record that takes sixteen bytes of a file: four words, the one after the other.
pub trait Row: Copy {
    // The record that a list of bytes begins with, and the bytes of a record.
    ghost of: { List ℕ → Self };

    ghost bytes: { Self → List ℕ };

    // Words stand in the order in which the file has them.
    fn from_words(words: [u32; 4]) -> Self
        ensures { (s : List ℕ) → words ≡ words_of s → result ≡ of s };

    fn words(self) -> [u32; 4]
        ensures { bytes self ≡ bytes_of result };
}

impl Row for Layout {
    ghost of = { layout_of };

    ghost bytes = { layout_bytes };

    #[tactic(auto, unfolding(crate::specs::File::layout_of))]
    fn from_words(words: [u32; 4]) -> Layout {
        let [longest, track, time, rotation] = words;
        Layout {
            longest,
            track,
            time,
            rotation,
        }
    }

    #[tactic(auto, unfolding(crate::specs::File::layout_bytes))]
    fn words(self) -> [u32; 4] {
        [self.longest, self.track, self.time, self.rotation]
    }
}

impl Row for Session {
    ghost of = { session_of };

    ghost bytes = { session_bytes };

    #[tactic(auto, unfolding(crate::specs::File::session_of))]
    fn from_words(words: [u32; 4]) -> Session {
        let [rate, cushion, buffer, layout] = words;
        Session {
            rate,
            cushion,
            buffer,
            layout,
        }
    }

    #[tactic(auto, unfolding(crate::specs::File::session_bytes))]
    fn words(self) -> [u32; 4] {
        [self.rate, self.cushion, self.buffer, self.layout]
    }
}

// The record that a part of a file begins with.
fn get_row<R: Row>(s: &[u8]) -> R
    requires { 16 ≤ length s.now }
    ensures { result ≡ R.of s.now }
{
    R::from_words([
        get_word(s),
        get_word(&s[4..]),
        get_word(&s[8..]),
        get_word(&s[12..]),
    ])
}

// The `n` records that a part of a file begins with, and zeros in the places above.
pub(crate) fn get_rows<R: Row, const N: usize>(s: &[u8], n: usize) -> [R; N]
    requires { (n ≤ N) × (n * 16 ≤ length s.now) }
    ensures { result ≡ padded N (R.of []) (row_of R.of n s.now) }
{
    let mut out = [R::from_words([0; 4]); N];
    for i in 0..n {
        out[i] = get_row(&s[i * 16..]);
    }
    out
}
