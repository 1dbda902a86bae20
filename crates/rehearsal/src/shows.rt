// The show of a case: its file in hex, and junk in its unused places.
use crate::given::Bytes;
use show::refusal::Refusal;
use show::{Layout, Session, Show};

// The file, read; a dash is an empty one.
pub(crate) fn read_show(hex: &[u8]) -> Result<Show, Refusal> {
    let file = Bytes::of(hex);
    let reading = showfile::read(file.as_slice());
    reading.check?;
    Ok(reading.show)
}

pub(crate) fn junked(mut show: Show) -> Show {
    let laid = show.laid;
    let playing = show.playing;
    for y in show.layouts.iter_mut().skip(laid) {
        *y = Layout {
            longest: 9,
            track: 99,
            time: 0,
            rotation: 5,
        };
    }
    for x in show.sessions.iter_mut().skip(playing) {
        *x = Session {
            rate: 0,
            cushion: 0,
            buffer: 0,
            layout: 77,
        };
    }
    show
}
