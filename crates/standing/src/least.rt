// The least that a session of a standing has to spare.
ghost use Rattle.std.specs.Prelude.{◌≡◌, ◌^◌, ◌≤◌, ◌<◌, pos, ◌-ℤ◌};
ghost use Rattle.std.specs.Int.Signed.{mag};
ghost use Rattle.standing.specs.Standing.{Fit, standing_slack};

use crate::Standing;
use order::ordered;

// A workahead, net of the times up to and including its own.
fn net(ahead: i64, load: u64) -> i64
    requires { (mag ahead < 2 ^ 62) × (load ≤ 2 ^ 61) }
    ensures { result ≡ ahead -ℤ pos load }
{
    ahead - load as i64
}

// The least of them: the sessions one after the other, each at its place.
pub(crate) fn least(s: Standing) -> i64
    requires fit { Fit s }
    requires playing_nonzero { 0 < s.playing }
    ensures { result ≡ standing_slack s }
{
    let seats = ordered([0; 16], s.places, s.playing);
    let first = seats[0] as usize;
    let mut sum = s.times[first];
    let mut least = net(s.aheads[first], sum);
    for k in 1..s.playing {
        let i = seats[k] as usize;
        sum += s.times[i];
        least = least.min(net(s.aheads[i], sum));
    }
    least
}
