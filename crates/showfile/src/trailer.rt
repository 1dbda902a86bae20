// The last twenty bytes of a file, and their tests.
ghost use Rattle.std.specs.Prelude.{◌≡◌, ◌≤◌, length};
ghost use Rattle.show.specs.Limits.{CountsWithin, Tells};
ghost use Rattle.showfile.specs.File.{trailer_of};
ghost use Rattle.showfile.specs.Checks.{Distanced, trailer_check};

use crate::Reading;
use crate::bytes::{get_half, get_word};
use show::refusal::Refusal;
use show::{Drive, Show};

// `far` and `near` are the distances from the trailer's first byte back to the first layout and to the first session.
#[derive(Clone, Copy)]
pub struct Trailer {
    pub drive: Drive,
    pub laid: usize,
    pub playing: usize,
    pub far: u32,
    pub near: u32,
}

impl Trailer {
    pub const LENGTH: usize = 20;

    // `CountsWithin` is a clause of four functions here and in showfile_write, on a trailer twice and on a show twice.
    fn distanced(self, at: usize) -> bool
        requires { CountsWithin self.laid self.playing }
        ensures { Tells result (Distanced at self) }
    {
        self.far as usize == 16 * (self.laid + self.playing)
            && self.near as usize == 16 * self.playing
            && self.far as usize <= at
    }

    // 2, 3, 4, of a trailer that stands at `at`.
    pub(crate) fn check(self, at: usize) -> Result<(), Refusal>
        ensures { result ≡ trailer_check at self }
    {
        if !Show::counts_within(self.laid, self.playing) {
            return Err(Refusal::Counts);
        }
        if !self.distanced(at) {
            return Err(Refusal::Distances);
        }
        if !Reading::note_within(at - 16 * (self.laid + self.playing)) {
            return Err(Refusal::NoteLength);
        }
        Ok(())
    }
}

#[tactic(auto, unfolding(crate::specs::File::trailer_of))]
pub(crate) fn get_trailer(s: &[u8]) -> Trailer
    requires { 20 ≤ length s.now }
    ensures { result ≡ trailer_of s.now }
{
    Trailer {
        drive: Drive {
            block: get_word(s),
            cylinder: get_word(&s[4..]),
        },
        laid: get_half(&s[8..]),
        playing: get_half(&s[10..]),
        far: get_word(&s[12..]),
        near: get_word(&s[16..]),
    }
}
