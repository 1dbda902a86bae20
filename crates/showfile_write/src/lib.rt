// Writing a show file. docs/RULES.md, section 6.
#![tactic(auto)]

mod bytes;
mod rows;
mod trailer;

ghost use Rattle.std.specs.Prelude.{◌≡◌, ◌+◌, ◌*◌, ◌≤◌, ◌++◌, length, drop};
ghost use Rattle.show.specs.Limits.{CountsWithin};
ghost use Rattle.showfile.specs.File.{file_of};
ghost use Rattle.showfile_write.specs.Answers.{write_check, written_of, buffer_of};

use crate::rows::put_rows;
use crate::trailer::{put_trailer, trailer_of};
use show::Show;
use show::refusal::Refusal;
use showfile::trailer::Trailer;
use showfile::{Reading, Written};

// 2, 4, 5, 6, 7, 16, of a buffer of `room` bytes.
fn check_write(show: &Show, note: &[u8], room: usize) -> Result<(), Refusal>
    ensures { result ≡ write_check show.now note.now room }
{
    if !Show::counts_within(show.laid, show.playing) {
        return Err(Refusal::Counts);
    }
    // As `note_within` of showfile, which no other crate calls.
    if Reading::NOTE_MOST < note.len() {
        return Err(Refusal::NoteLength);
    }
    show.check()?;
    if room < note.len() + 16 * (show.laid + show.playing) + Trailer::LENGTH {
        return Err(Refusal::BufferShort);
    }
    Ok(())
}

// Writes a file whose counts have been found good and which fits, and answers its length.
fn put_file(show: &Show, note: &[u8], buffer: &mut [u8]) -> usize
    requires counts { CountsWithin show.now.laid show.now.playing }
    requires fits { length note.now + 16 * (show.now.laid + show.now.playing) + 20 ≤ length buffer.old }
    ensures value { result ≡ length (file_of show.now note.now) }
    ensures buffer_after { buffer.new ≡ file_of show.now note.now ++ drop (length (file_of show.now note.now)) buffer.old }
{
    let first = note.len();
    let second = first + show.laid * 16;
    let third = second + show.playing * 16;
    buffer[..first].copy_from_slice(note);
    put_rows(&mut buffer[first..], &show.layouts[..show.laid]);
    put_rows(&mut buffer[second..], &show.sessions[..show.playing]);
    put_trailer(&mut buffer[third..], trailer_of(show));
    third + Trailer::LENGTH
}

// Writes a show and its note from the buffer's first byte; or 2, 4, 5, 6, 7, 16, in this order, and then the buffer is as it was.
pub fn write(show: Show, note: &[u8], buffer: &mut [u8]) -> Written
    ensures value { result ≡ written_of show note.now (length buffer.old) }
    ensures buffer_after { buffer.new ≡ buffer_of show note.now buffer.old }
{
    match check_write(&show, note, buffer.len()) {
        Ok(()) => Written {
            check: Ok(()),
            len: put_file(&show, note, buffer),
        },
        Err(why) => Written {
            check: Err(why),
            len: 0,
        },
    }
}
