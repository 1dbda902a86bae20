// How the sessions of a run stand to one another, and what a standing in any order has to spare. docs/RULES.md, section 10.
#![tactic(auto)]

mod fit;
mod least;

ghost use Rattle.std.specs.Prelude.{◌≡◌};
ghost use Rattle.run.specs.Sound.{SoundRun};
ghost use Rattle.standing.specs.Standing.{aheads_of, no_standing, standing_of};
ghost use Rattle.standing.specs.Answers.{stood_of, slack_for};

use crate::fit::is_fit;
use crate::least::least;
use order::places;
use run::Run;
use run_test::{Test, test_run};
use show::refusal::Refusal;
use trial::tried;
use workahead::ahead_of;

// The workahead, the worst time and the place of each session, in rows: `places` and `ordered` (crate order) and `tried` take or make one each.
#[derive(Clone, Copy)]
pub struct Standing {
    pub playing: usize,
    pub aheads: [i64; 16],
    pub times: [u64; 16],
    pub places: [usize; 16],
}

// How the sessions stand, or why that is not told.
// A struct and no Result: theorem Empty (crates/promises/specs/Refusals.antt) says which standing stands beside a refusal.
#[derive(Clone, Copy)]
pub struct Stood {
    pub check: Result<(), Refusal>,
    pub standing: Standing,
}

// In increasing workahead: 19. The record is tested here, so that those who ask more of the standing need not test it again.
#[tactic(auto, unfolding(crate::specs::Answers::stood_of))]
pub fn stand(run: Run) -> Stood
    ensures { result ≡ stood_of run }
{
    let Test::Sound = test_run(run) else {
        return Stood {
            check: Err(Refusal::Damaged),
            standing: nobody(),
        };
    };
    Stood {
        check: Ok(()),
        standing: survey(&run),
    }
}

// What a standing has to spare, each session at its place: 19 where a number is too large or two share a place, 9.
#[tactic(auto, unfolding(crate::specs::Answers::slack_for))]
pub fn slack_in(standing: Standing) -> Result<i64, Refusal>
    ensures { result ≡ slack_for standing }
{
    if !is_fit(standing) {
        return Err(Refusal::Damaged);
    }
    if standing.playing == 0 {
        return Err(Refusal::NoSession);
    }
    Ok(least(standing))
}

// Zeros throughout, for an answer that has no standing.
fn nobody() -> Standing
    ensures { result ≡ no_standing }
{
    Standing {
        playing: 0,
        aheads: [0; 16],
        times: [0; 16],
        places: [0; 16],
    }
}

fn survey(run: &Run) -> Standing
    requires { SoundRun run.now }
    ensures { result ≡ standing_of run.now }
{
    let playing = run.show.playing;
    let aheads = aheads(run);
    // Two variables first: the check does not follow what a call answers straight into a field that is an array.
    let times = tried(run.show, run.counts).times;
    let places = places(aheads, playing);
    Standing {
        playing,
        aheads,
        times,
        places,
    }
}

// The workahead of each session, zeros above. Within a sound run none is refused.
fn aheads(run: &Run) -> [i64; 16]
    requires { SoundRun run.now }
    ensures { result ≡ aheads_of run.now }
{
    let mut aheads = [0; 16];
    for i in 0..run.show.playing {
        aheads[i] = ahead_of(run.show.sessions[i], run.states[i]).unwrap_or(0);
    }
    aheads
}
