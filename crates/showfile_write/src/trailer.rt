// The last twenty bytes of a file that is written.
ghost use Rattle.std.specs.Prelude.{◌≡◌, ◌≤◌, length};
ghost use Rattle.show.specs.Limits.{CountsWithin};
ghost use Rattle.showfile.specs.Bytes.{over};
ghost use Rattle.showfile.specs.File.{trailer_bytes, trailer_for};

use crate::bytes::{put_half, put_word};
use show::Show;
use showfile::trailer::Trailer;

#[tactic(auto, unfolding(showfile::specs::File::trailer_for))]
pub(crate) fn trailer_of(show: &Show) -> Trailer
    requires { CountsWithin show.now.laid show.now.playing }
    ensures { result ≡ trailer_for show.now }
{
    Trailer {
        drive: show.drive,
        laid: show.laid,
        playing: show.playing,
        far: (16 * (show.laid + show.playing)) as u32,
        near: (16 * show.playing) as u32,
    }
}

pub(crate) fn put_trailer(b: &mut [u8], t: Trailer)
    requires { 20 ≤ length b.old }
    ensures { b.new ≡ over b.old 0 (trailer_bytes t) }
{
    put_word(b, t.drive.block);
    put_word(&mut b[4..], t.drive.cylinder);
    put_half(&mut b[8..], t.laid);
    put_half(&mut b[10..], t.playing);
    put_word(&mut b[12..], t.far);
    put_word(&mut b[16..], t.near);
}
