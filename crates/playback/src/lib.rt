// What goes on in a run: time passes, players take, reads are finished. Each call tests the run record first, and hands the run back if it
// refuses.
#![tactic(auto)]

mod cycle;

ghost use Rattle.std.specs.Prelude.{◌≡◌, ◌*◌, ◌≤◌};
ghost use Rattle.state.specs.State.{put_most, ticked, filled};
ghost use Rattle.run.specs.Run.{span_most};
ghost use Rattle.run.specs.Sound.{SoundRun};
ghost use Rattle.run.specs.Steps.{states_after};
ghost use Rattle.playback.specs.Answers.{pass_of, take_of, finish_of};

use crate::cycle::{count_off, place_after};
use player::take_from;
use run::{Moved, Run, left_in};
use run_test::{Test, test_run};
use show::refusal::Refusal;
use state::State;

// C of one session after d µs.
fn tick(rate: u32, d: u64, state: State) -> State
    requires taken_le_put_most { (state.taken ≤ put_most) × (state.clock ≤ state.taken * 1000000) }
    requires d_le_span_most { d ≤ span_most }
    ensures { result ≡ ticked rate d state }
{
    let clock = state.clock + u64::from(rate) * d;
    State {
        clock: clock.min(state.taken * 1_000_000),
        ..state
    }
}

// The states after d µs.
fn advance(run: &Run, d: u64) -> [State; 16]
    requires sound { SoundRun run.now }
    requires d_le_span_most { d ≤ span_most }
    ensures { result ≡ states_after run.now.started run.now d }
{
    let mut states = run.states;
    if run.started {
        for i in 0..run.show.playing {
            states[i] = tick(run.show.sessions[i].rate, d, states[i]);
        }
    }
    states
}

// Time goes by, d µs: 19, 11. Here and below a closure says how a refusal hands the run back: a function for all calls would be a public one.
#[tactic(auto, unfolding(crate::specs::Answers::pass_of, crate::specs::Answers::pass_check, run::specs::Steps::passed))]
pub fn pass(mut run: Run, d: u64) -> Moved
    ensures { result ≡ pass_of run d }
{
    let refused = |why| Moved {
        check: Err(why),
        run,
    };
    let Test::Sound = test_run(run) else {
        return refused(Refusal::Damaged);
    };
    if Run::SPAN_MOST < d {
        return refused(Refusal::TooLong);
    }
    run.states = advance(&run, d);
    Moved { check: Ok(()), run }
}

// A player takes n bytes of a session: 19, 9, 12, 10.
#[tactic(auto, unfolding(crate::specs::Answers::take_of, crate::specs::Answers::take_check, run::specs::Steps::drawn_at))]
pub fn take(mut run: Run, session: usize, n: u64) -> Moved
    ensures { result ≡ take_of run session n }
{
    let refused = |why| Moved {
        check: Err(why),
        run,
    };
    let Test::Sound = test_run(run) else {
        return refused(Refusal::Damaged);
    };
    if run.show.playing <= session {
        return refused(Refusal::NoSession);
    }
    let drawn = take_from(
        run.states[session],
        run.show.sessions[session],
        run.started,
        n,
    );
    run.states[session] = drawn.state;
    Moved {
        check: drawn.check,
        run,
    }
}

// A block more is put.
fn fill(state: State, block: u32) -> State
    requires { state.put ≤ put_most }
    ensures { result ≡ filled block state }
{
    State {
        put: state.put + u64::from(block),
        ..state
    }
}

// The read under way has come, after d µs: 19, 11, 17.
#[tactic(auto, unfolding(crate::specs::Answers::finish_of, crate::specs::Answers::finish_check))]
pub fn finish(run: Run, d: u64) -> Moved
    ensures { result ≡ finish_of run d }
{
    let refused = |why| Moved {
        check: Err(why),
        run,
    };
    let Test::Sound = test_run(run) else {
        return refused(Refusal::Damaged);
    };
    if Run::SPAN_MOST < d {
        return refused(Refusal::TooLong);
    }
    let Some(session) = run.underway else {
        return refused(Refusal::NothingUnderway);
    };
    let mut states = advance(&run, d);
    states[session] = fill(states[session], run.show.drive.block);
    let place = place_after(run.place, run.left, run.show.playing);
    let left = count_off(run.left, left_in(run.counts, run.order, place));
    Moved {
        check: Ok(()),
        run: Run {
            states,
            place,
            left,
            underway: None,
            ..run
        },
    }
}
