// The lines and sentences, put into a lent buffer that has room for them.
ghost use Rattle.std.specs.Prelude.{◌≡◌, ◌≤◌, length};
ghost use Rattle.text.specs.Puts.{put_over, put_to, FitsAt, Put};
ghost use Rattle.explain.specs.Text.{load_text, beyond_text, buffer_text, layout_text, clip_text, sentence};
ghost use Rattle.explain.specs.Answers.{said_most};

use crate::TEXT_MOST;
use show::Session;
use show::refusal::Told;

// The load as a percentage, among words.
pub(crate) fn put_load(out: &mut [u8], at: usize, before: &[u8], tenths: u64, after: &[u8]) -> usize
    requires { FitsAt out.old at (load_text before.now tenths after.now) }
    ensures { Put out.old at (load_text before.now tenths after.now) out.new result }
{
    text::put_paired(out, at, before, tenths / 10, b".", tenths % 10, after)
}

pub(crate) fn put_beyond(out: &mut [u8; TEXT_MOST], tenths: u64) -> usize
    ensures { Put out.old 0 (beyond_text tenths) out.new result }
{
    let most = put_load(
        out,
        0,
        b"beyond\nThe drive would keep up, working at ",
        tenths,
        b" per cent, but some clip would need a buffer of more than ",
    );
    text::put_numbered(
        out,
        most,
        b"",
        Session::BUFFER_MOST as u64,
        b" bytes, the most there is.\n",
    )
}

pub(crate) fn put_buffer(out: &mut [u8; TEXT_MOST], session: u64, size: u64, tenths: u64) -> usize
    ensures { Put out.old 0 (buffer_text session size tenths) out.new result }
{
    let clip = text::put_paired(out, 0, b"buffer ", session, b" ", size, b"\nClip ");
    let load = text::put_paired(
        out,
        clip,
        b"",
        session,
        b", counted from 0, needs a buffer of ",
        size,
        b" bytes or more; the drive itself would keep up, working at ",
    );
    put_load(out, load, b"", tenths, b" per cent.\n")
}

// What a refusal of a file means. It goes by the numbers that a refusal is told by, and not by the cases of `Refusal`, since the table
// that the contract names, `sentences`, does (docs/DECISIONS.md).
pub(crate) fn put_sentence(out: &mut [u8], at: usize, told: Told) -> usize
    requires { FitsAt out.old at (sentence told) }
    ensures { Put out.old at (sentence told) out.new result }
{
    let place = told.place as u64;
    match told.number {
        1 => text::put_word(
            out,
            at,
            b"This is no show file, or not all of it: it is too short or too long to be one.\n",
        ),
        2 => text::put_word(
            out,
            at,
            b"The show says that it has no layout, or too many layouts or clips.\n",
        ),
        3 => text::put_word(
            out,
            at,
            b"The file is damaged: its parts are not where it says they are.\n",
        ),
        4 => text::put_word(out, at, b"The note in the file is too long.\n"),
        5 => text::put_word(
            out,
            at,
            b"The block size, or the number of blocks to a cylinder, cannot be right.\n",
        ),
        6 => put_layout(out, at, place),
        7 => put_clip(out, at, place),
        _ => text::put_word(out, at, b"The show is refused.\n"),
    }
}

// A function for each of the two, which differ in their words alone: so put_sentence stays short.
fn put_layout(out: &mut [u8], at: usize, place: u64) -> usize
    ensures out_after { out.new ≡ put_over out.old at (layout_text place) }
    ensures value { result ≡ put_to out.old at (layout_text place) }
{
    text::put_numbered(
        out,
        at,
        b"Layout ",
        place,
        b", counted from 0, has a time that cannot be right.\n",
    )
}

fn put_clip(out: &mut [u8], at: usize, place: u64) -> usize
    ensures out_after { out.new ≡ put_over out.old at (clip_text place) }
    ensures value { result ≡ put_to out.old at (clip_text place) }
{
    text::put_numbered(
        out,
        at,
        b"Clip ",
        place,
        b", counted from 0, has a number that cannot be right.\n",
    )
}
