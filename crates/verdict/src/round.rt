// The least round time that sustains itself, and the counts that it asks for: docs/RULES.md, section 7.
ghost use Rattle.std.specs.Prelude.{◌≡◌};
ghost use Rattle.show.specs.Limits.{ShowWithin};
ghost use Rattle.theory.specs.Shows.{load_of};
ghost use Rattle.verdict.specs.Answers.{row};
ghost use Rattle.verdict.specs.Steps.{Lasting, SoonerIs, EndIs, rates_of, SettledAs};

use crate::known::takes;
use show::{Session, Show};

// Past every round of counts that fit.
const END_MOST: u64 = 1_000_000_000_000_000;

// The first time over which the most that the session's buffer takes is no longer ahead of its rate; the end so far, if earlier.
fn sooner(block: u32, session: Session, end: u64) -> u64
    requires { Lasting block session }
    ensures { SoonerIs block session end result }
{
    let taken = session.cushion as u64 + block as u64;
    let buffer = session.buffer as u64;
    if buffer < taken {
        return 0;
    }
    let rate = session.rate as u64;
    let most = (buffer - taken) / (block as u64);
    let last = (most * (block as u64 * 1_000_000) + rate - 1) / rate;
    last.min(end)
}

// The first time over which some count no longer fits its buffer. `ShowWithin` is a clause of each function that borrows a show, here, in `reason`
// and in `trial`: a type that has it would be public in `show`, and each use of the show would go through it.
fn end_of(show: &Show) -> u64
    requires { ShowWithin show.now }
    ensures { EndIs show.now result }
{
    let block = show.drive.block;
    let mut end = END_MOST;
    // By index: of a slice of an array in a show that is lent, the proofs don't know the length.
    for i in 0..show.playing {
        end = sooner(block, show.sessions[i], end);
    }
    end
}

// Each session's rate, in a row of its own beside what is covered and the times: stepping through the sessions takes an instruction more.
fn rates_of(show: &Show) -> [u64; 16]
    requires { ShowWithin show.now }
    ensures { result ≡ row (load_of show.now) (rates_of show.now) }
{
    let mut rates: [u64; 16] = [0; 16];
    for i in 0..show.playing {
        rates[i] = show.sessions[i].rate as u64;
    }
    rates
}

// The time t at which the counts that t asks for take no longer than t; none, once a count does not fit. A count that is still
// ahead stays, and a longer time counts at once for the sessions after it. Both loops stand here, since they share the rows. A `loop`: how
// many turns there are is known by none.
pub(crate) fn settle(show: &Show) -> Option<u64>
    requires { ShowWithin show.now }
    ensures { SettledAs show.now result }
{
    let drive = show.drive;
    let unit = drive.block as u64 * 1_000_000;
    let end = end_of(show);
    if end == 0 {
        return None;
    }
    let rates = rates_of(show);
    let mut covered: [u64; 16] = [0; 16];
    let mut times: [u64; 16] = [0; 16];
    let mut t: u64 = 0;
    loop {
        let before = t;
        for i in 0..show.playing {
            let work = rates[i] * t;
            if covered[i] <= work {
                let count = work / unit + 1;
                let session = show.sessions[i];
                let at = session.layout as usize;
                let time = takes(show.layouts[at], drive.cylinder, count as u32);
                t = t - times[i] + time;
                if end <= t {
                    return None;
                }
                covered[i] = count * unit;
                times[i] = time;
            }
        }
        if t <= before {
            return Some(t);
        }
    }
}
