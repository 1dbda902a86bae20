// Whether a standing is one that slack can be worked out of.
ghost use Rattle.std.specs.Prelude.{◌^◌, ◌≤◌, ◌<◌};
ghost use Rattle.std.specs.Int.Signed.{mag};
ghost use Rattle.show.specs.Limits.{Tells};
ghost use Rattle.standing.specs.Standing.{Fit, PlacedBelow, PlacedApart, Small, SmallTo};

use crate::Standing;
use order::ordered;
use show::Show;

// No difference of its times and workaheads passes 64 bits, and each session has a place of its own.
pub(crate) fn is_fit(s: Standing) -> bool
    ensures { Tells result (Fit s) }
{
    s.playing <= Show::PLAYING_MOST && all_small(s) && apart(s.places, s.playing)
}

// Whether the numbers of each session are small.
fn all_small(s: Standing) -> bool
    requires { s.playing ≤ 16 }
    ensures { Tells result (SmallTo s s.playing) }
{
    for i in 0..s.playing {
        if !one_small(s.times[i], s.aheads[i], s.places[i], s.playing) {
            return false;
        }
    }
    true
}

fn one_small(time: u64, ahead: i64, place: usize, playing: usize) -> bool
    ensures { Tells result (Small time ahead place playing) }
{
    time < 10_000_000_000_000 && near(ahead) && place < playing
}

// From -2^62 to 2^62 - 1.
fn near(ahead: i64) -> bool
    ensures { Tells result (mag ahead < 2 ^ 62) }
{
    (-4_611_686_018_427_387_904..4_611_686_018_427_387_904).contains(&ahead)
}

// Whether no two stand at one place: each is found at its own, once all are seated. Sixteen places with a count, as `ordered` takes them.
fn apart(places: [usize; 16], playing: usize) -> bool
    requires { (playing ≤ 16) × PlacedBelow places playing }
    ensures { Tells result (PlacedApart places playing) }
{
    let seats = ordered([0; 16], places, playing);
    for i in 0..playing {
        if seats[places[i]] as usize != i {
            return false;
        }
    }
    true
}
