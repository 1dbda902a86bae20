// Given counts as a set of a show: whether they are a feasible workahead-augmenting set, with their times.
#![tactic(auto)]

ghost use Rattle.std.specs.Prelude.{◌≡◌};
ghost use Rattle.show.specs.Limits.{Tells, ShowWithin};
ghost use Rattle.theory.specs.Counts.{round_time};
ghost use Rattle.theory.specs.Shows.{load_of};
ghost use Rattle.verdict.specs.Answers.{times_of, set_of};
ghost use Rattle.count.specs.Answers.{BlockWithin, RateWithin};
ghost use Rattle.trial.specs.Answers.{TrialIs};
ghost use Rattle.trial.specs.Steps.{Held, Holds};

use cost::Cost;
use count::{fits, need};
use show::refusal::Refusal;
use show::{Session, Show};

// L of given counts and the worst time of each; zeros above the session count, and everywhere if refused.
// A struct and no `Result` around it: theorem Empty (crates/promises/specs/Refusals) has the zeros beside a refusal.
#[derive(Clone, Copy)]
pub struct Trial {
    pub answer: Result<bool, Refusal>,
    pub round: u64,
    pub times: [u64; 16],
}

// 2, 5, 6, 7, then whether the counts hold; their times in either case. Within the limits of a show no time is refused.
pub fn tried(show: Show, counts: [u32; 16]) -> Trial
    ensures { TrialIs show counts result }
{
    if let Err(why) = show.check() {
        return Trial {
            answer: Err(why),
            round: 0,
            times: [0; 16],
        };
    }
    let (round, times) = added(&show, &counts);
    Trial {
        answer: Ok(all_held(&show, &counts, round)),
        round,
        times,
    }
}

// The sum of the worst times of given counts, and each of them. Within the limits none is refused; as `takes` of verdict, which is private.
fn added(show: &Show, counts: &[u32; 16]) -> (u64, [u64; 16])
    requires { ShowWithin show.now }
    ensures { (result.0 ≡ round_time (load_of show.now) (set_of counts.now)) × (result.1 ≡ times_of (load_of show.now) (set_of counts.now)) }
{
    let mut round: u64 = 0;
    let mut times: [u64; 16] = [0; 16];
    for i in 0..show.playing {
        let at = show.sessions[i].layout as usize;
        let time = Cost::of_read(show.layouts[at])
            .takes(show.drive.cylinder, counts[i])
            .unwrap_or(0);
        times[i] = time;
        round += time;
    }
    (round, times)
}

fn all_held(show: &Show, counts: &[u32; 16], t: u64) -> bool
    requires { ShowWithin show.now }
    ensures { Tells result (Holds (load_of show.now) t (set_of counts.now)) }
{
    (0..show.playing).all(|i| held(show.drive.block, show.sessions[i], t, counts[i]))
}

// A session's count fits its buffer and is ahead of its rate over t: so it is at least 1. Within the limits no rate is refused.
fn held(block: u32, session: Session, t: u64, count: u32) -> bool
    requires { BlockWithin block × RateWithin session.rate }
    ensures { Tells result (Held block session t count) }
{
    fits(session, block, count) && need(session.rate, block, t).unwrap_or(u64::MAX) <= count as u64
}
