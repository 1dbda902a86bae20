// Spare time: how far a session is ahead of its player, what a run has to spare, and the start. docs/RULES.md, section 10.
#![tactic(auto)]

ghost use Rattle.std.specs.Prelude.{◌≡◌, ◌<◌};
ghost use Rattle.show.specs.Checks.{first};
ghost use Rattle.run.specs.Run.{playing};
ghost use Rattle.run.specs.Sound.{SoundRun};
ghost use Rattle.run.specs.Answers.{moved};
ghost use Rattle.order.specs.Order.{places_of, ahead_in};
ghost use Rattle.standing.specs.Standing.{aheads_of, standing_of};
ghost use Rattle.spare.specs.Times.{running};
ghost use Rattle.spare.specs.Answers.{workahead_of, slack_of, some_check, slack_check, start_of};

use order::ordered;
use run::{Moved, Run, left_in};
use run_test::{Test, test_run};
use show::refusal::Refusal;
use standing::{Standing, slack_in, stand};
use workahead::ahead_of;

// The answer, and the run as it was given.
// A struct and no Result: theorem HandsBack (crates/promises/specs/Runs.antt) says which run stands beside a refusal.
#[derive(Clone, Copy)]
pub struct Spared {
    pub spare: Result<i64, Refusal>,
    pub run: Run,
}

// How far a session is ahead of its player: 19, 9.
#[tactic(auto, unfolding(crate::specs::Answers::workahead_of))]
pub fn workahead(run: Run, session: usize) -> Spared
    ensures { result ≡ workahead_of run session }
{
    let refused = |why| Spared {
        spare: Err(why),
        run,
    };
    let Test::Sound = test_run(run) else {
        return refused(Refusal::Damaged);
    };
    if run.show.playing <= session {
        return refused(Refusal::NoSession);
    }
    Spared {
        spare: ahead_of(run.show.sessions[session], run.states[session]),
        run,
    }
}

// What the run has to spare before some picture could freeze: 19, 9.
#[tactic(auto, unfolding(crate::specs::Answers::slack_of, standing::specs::Answers::stood_of))]
pub fn slack(run: Run) -> Spared
    ensures { result ≡ slack_of run }
{
    let stood = stand(run);
    if let Err(why) = stood.check {
        return Spared {
            spare: Err(why),
            run,
        };
    }
    Spared {
        spare: slack_in(stood.standing),
        run,
    }
}

// The players start: 19, 18, 13, 9, 15.
#[tactic(auto, unfolding(crate::specs::Answers::start_of, crate::specs::Answers::start_check, standing::specs::Answers::stood_of))]
pub fn start(run: Run) -> Moved
    ensures { result ≡ start_of run }
{
    let refused = |why| Moved {
        check: Err(why),
        run,
    };
    let stood = stand(run);
    if let Err(why) = stood.check {
        return refused(why);
    }
    if run.started {
        return refused(Refusal::AlreadyStarted);
    }
    let None = run.underway else {
        return refused(Refusal::ReadUnderway);
    };
    begin(run, stood.standing)
}

// A run in this standing starts if someone plays and it has slack of 0 or more.
fn begin(run: Run, standing: Standing) -> Moved
    requires { SoundRun run × (standing ≡ standing_of run) }
    ensures { result ≡ moved (first (some_check run) (slack_check run)) run (running run) }
{
    let refused = |why| Moved {
        check: Err(why),
        run,
    };
    let Ok(spare) = slack_in(standing) else {
        return refused(Refusal::NoSession);
    };
    if spare < 0 {
        return refused(Refusal::NegativeSlack);
    }
    Moved {
        check: Ok(()),
        run: cycling(run, standing.places),
    }
}

// The cycle in the order of these places, an operation to begin at its first.
fn cycling(run: Run, places: [usize; 16]) -> Run
    requires sound_run { SoundRun run }
    requires run_nonzero { (0 < playing run) × (places ≡ places_of (ahead_in (aheads_of run)) (playing run)) }
    ensures { result ≡ running run }
{
    let order = ordered(run.order, places, run.show.playing);
    Run {
        order,
        place: 0,
        left: left_in(run.counts, order, 0),
        started: true,
        ..run
    }
}
