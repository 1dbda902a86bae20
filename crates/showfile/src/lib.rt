// The show file, and reading it. docs/RULES.md, section 6.
#![tactic(auto)]

mod bytes;
pub mod rows;
pub mod trailer;

ghost use Rattle.std.specs.Prelude.{◌≡◌, ◌+◌, ◌*◌, ◌≤◌, length, Err};
ghost use Rattle.show.specs.Checks.{limits_check};
ghost use Rattle.show.specs.Limits.{Between, CountsWithin, Tells, no_show};
ghost use Rattle.showfile.specs.File.{show_from};
ghost use Rattle.showfile.specs.Checks.{file_least, file_most, note_most, note_length, Distanced};
ghost use Rattle.showfile.specs.Answers.{reading, read_of, note_of, shown_at};

use crate::rows::get_rows;
use crate::trailer::{Trailer, get_trailer};
use show::Show;
use show::refusal::Refusal;

// What reading answers: the show and the length of its note. Refused, both are zeros.
// No `Result` with a show: `reading` (specs/Answers), which the promises cite, has zeros beside a refusal.
#[derive(Clone, Copy)]
pub struct Reading {
    pub check: Result<(), Refusal>,
    pub show: Show,
    pub note: usize,
}

// What a writer answers: how many bytes it wrote. Refused, none. No `Result`, for the same reason: `written` has a 0 there.
#[derive(Clone, Copy)]
pub struct Written {
    pub check: Result<(), Refusal>,
    pub len: usize,
}

impl Reading {
    pub const FILE_LEAST: usize = 20;

    pub const FILE_MOST: usize = 1_428;

    pub const NOTE_MOST: usize = 1_024;

    fn length_within(n: usize) -> bool
        ensures { Tells result (Between file_least n file_most) }
    {
        Reading::FILE_LEAST <= n && n <= Reading::FILE_MOST
    }

    pub(crate) fn note_within(n: usize) -> bool
        ensures { Tells result (n ≤ note_most) }
    {
        n <= Reading::NOTE_MOST
    }
}

// What a refusal answers; for whoever reads on behalf of another, too.
pub fn refused(why: Refusal) -> Reading
    ensures { result ≡ reading (Err why) no_show 0 }
{
    Reading {
        check: Err(why),
        show: Show::nothing(),
        note: 0,
    }
}

// The show whose first layout a part of a file begins with.
fn get_show(s: &[u8], t: Trailer) -> Show
    requires { (t.laid ≤ 8) × (t.playing ≤ 16) × (16 * (t.laid + t.playing) ≤ length s.now) }
    ensures { result ≡ show_from t s.now }
{
    Show {
        drive: t.drive,
        layouts: get_rows(s, t.laid),
        laid: t.laid,
        sessions: get_rows(&s[t.laid * 16..], t.playing),
        playing: t.playing,
    }
}

// What is left to test where the trailer is good: 5, 6, 7.
fn read_limits(file: &[u8], at: usize, t: Trailer) -> Reading
    requires counts { CountsWithin t.laid t.playing }
    requires distances { (Distanced at t) × (at ≤ length file.now) }
    ensures { result ≡ reading (limits_check (shown_at file.now at t)) (shown_at file.now at t) (note_length at t) }
{
    let note = at - 16 * (t.laid + t.playing);
    let show = get_show(&file[note..], t);
    match show.check() {
        Ok(()) => Reading {
            check: Ok(()),
            show,
            note,
        },
        Err(why) => refused(why),
    }
}

// The show in a file and the length of its note; or 1 to 7, in this order.
pub fn read(file: &[u8]) -> Reading
    ensures { result ≡ read_of file.now }
{
    let n = file.len();
    if !Reading::length_within(n) {
        return refused(Refusal::FileLength);
    }
    let at = n - Trailer::LENGTH;
    let t = get_trailer(&file[at..]);
    if let Err(why) = t.check(at) {
        return refused(why);
    }
    read_limits(file, at, t)
}

// The note, as a part of the file; nothing where the file is refused.
pub fn note(file: &[u8]) -> &[u8]
    ensures { result.now ≡ note_of file.now }
{
    let end = read(file).note;
    &file[..end]
}
