// The scheduler: which session is read next.
#![tactic(auto)]

mod cycle;

ghost use Rattle.std.specs.Prelude.{◌≡◌};
ghost use Rattle.scheduler.specs.Answers.{choose_of};

use crate::cycle::{arrive, idle, left_after};
use run::{Run, left_in};
use run_test::{Test, test_run};
use show::refusal::Refusal;

// What to read next.
// An enum of its own with the refusal's enum in its case: a rule of the project (docs/DECISIONS.md, "Forms").
#[derive(Clone, Copy)]
pub enum Choice {
    Idle,
    Read(usize),
    Refused(Refusal),
}

// The choice, and the run after it.
// A struct and no Result: theorem HandsBack (crates/promises/specs/Runs.antt) says which run stands beside a refusal.
#[derive(Clone, Copy)]
pub struct Chosen {
    pub choice: Choice,
    pub run: Run,
}

// The next read, which is then under way, or Idle: 19, 13, 14. The loop over those that are skipped stands here so that it copies no run.
#[tactic(auto, unfolding(crate::specs::Answers::choose_of, crate::specs::Answers::choose_check, crate::specs::Answers::next_of))]
pub fn choose(run: Run) -> Chosen
    ensures { result ≡ choose_of run }
{
    let refused = |why| Chosen {
        choice: Choice::Refused(why),
        run,
    };
    let Test::Sound = test_run(run) else {
        return refused(Refusal::Damaged);
    };
    let None = run.underway else {
        return refused(Refusal::ReadUnderway);
    };
    let playing = run.show.playing;
    if playing == 0 {
        return Chosen {
            choice: Choice::Idle,
            run,
        };
    }
    for k in 0..playing {
        let at = (run.place + k) % playing;
        let seat = run.order[at] as usize;
        if run.states[seat].room(run.show.sessions[seat], run.show.drive.block) {
            let left = left_after(k, run.left, left_in(run.counts, run.order, at));
            return arrive(run, at, left);
        }
    }
    Chosen {
        choice: Choice::Idle,
        run: idle(run),
    }
}
