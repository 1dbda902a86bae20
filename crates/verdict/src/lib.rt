// Yes or no: whether a show is accepted, with the smallest set of counts.
#![tactic(auto)]

pub mod known;
pub mod round;

ghost use Rattle.std.specs.Prelude.{◌≡◌};
ghost use Rattle.show.specs.Limits.{ShowWithin};
ghost use Rattle.theory.specs.Rounds.{asked};
ghost use Rattle.theory.specs.Shows.{load_of};
ghost use Rattle.verdict.specs.Answers.{DecisionIs, accepted_with, refused_for};
ghost use Rattle.verdict.specs.Steps.{Settled};

use crate::known::{asks, takes};
use crate::round::settle;
use show::Show;
use show::refusal::Refusal;

// L, and each session's count and the worst time for it; zeros above the session count, and everywhere if refused.
// No `Result`: theorem Empty (crates/promises/specs/Refusals) has the zeros beside a refusal. Counts and times in rows: C is lent one for each.
#[derive(Clone, Copy)]
pub struct Decision {
    pub verdict: Result<(), Refusal>,
    pub round: u64,
    pub counts: [u32; 16],
    pub times: [u64; 16],
}

// Whether a show is accepted: 2, 5, 6, 7, then 8.
pub fn decide(show: Show) -> Decision
    ensures { DecisionIs show result }
{
    if let Err(why) = show.check() {
        return refused(why);
    }
    let Some(t) = settle(&show) else {
        return refused(Refusal::NoSet);
    };
    accepted(&show, t)
}

// What a round of t µs asks for, and how long that takes.
fn accepted(show: &Show, t: u64) -> Decision
    requires show_within { ShowWithin show.now }
    requires settled { Settled show.now t }
    ensures { result ≡ accepted_with (load_of show.now) (asked (load_of show.now) t) }
{
    let drive = show.drive;
    let mut round: u64 = 0;
    let mut counts: [u32; 16] = [0; 16];
    let mut times: [u64; 16] = [0; 16];
    for i in 0..show.playing {
        let session = show.sessions[i];
        let at = session.layout as usize;
        let count = asks(session.rate, drive.block, t);
        let time = takes(show.layouts[at], drive.cylinder, count as u32);
        counts[i] = count as u32;
        times[i] = time;
        round += time;
    }
    Decision {
        verdict: Ok(()),
        round,
        counts,
        times,
    }
}

fn refused(why: Refusal) -> Decision
    ensures { result ≡ refused_for why }
{
    Decision {
        verdict: Err(why),
        round: 0,
        counts: [0; 16],
        times: [0; 16],
    }
}
