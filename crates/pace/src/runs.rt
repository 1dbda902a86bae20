// Jobs on a run.
ghost use Rattle.std.specs.Prelude.{◌<◌};

use crate::sums::{number, number_of, odd, over, total};
use run::{Moved, Run};
use scheduler::Choice;
use show::refusal::Refusal;

// How long a read takes, and how long passes before the next.
const SPAN: u64 = 100;

// What an idle turn adds.
const IDLE: u64 = 1_000;

// How many blocks of each session come before the start.
const FIRST: usize = 64;

// ---- before the turns

// Filled and started.
pub(crate) fn started(mut run: Run) -> Run {
    for _ in 0..run.show.playing % 17 * FIRST {
        run = playback::finish(scheduler::choose(run).run, 0).run;
    }
    spare::start(run).run
}

// ---- calls that move the run

pub(crate) fn plays(mut run: Run, turns: u64) -> u64 {
    over(turns, |_| play(&mut run))
}

// A block is chosen, comes and is taken, and time passes. Where nothing is read, it passes all the same.
fn play(run: &mut Run) -> u64 {
    let chosen = scheduler::choose(*run);
    *run = chosen.run;
    let added = match chosen.choice {
        Choice::Idle => IDLE,
        Choice::Refused(why) => number(why),
        Choice::Read(session) => return block(run, session),
    };
    total([added, kept(playback::pass(*run, SPAN), run)])
}

fn block(run: &mut Run, session: usize) -> u64 {
    let came = kept(playback::finish(*run, SPAN), run);
    let took = kept(
        playback::take(*run, session, run.show.drive.block as u64),
        run,
    );
    let went = kept(playback::pass(*run, SPAN), run);
    total([
        came,
        took,
        went,
        session as u64,
        run.states[session % 16].clock,
    ])
}

pub(crate) fn passes(mut run: Run, turns: u64) -> u64 {
    over(turns, |_| {
        let went = kept(playback::pass(run, 1), &mut run);
        total([went, run.states[0].clock])
    })
}

pub(crate) fn takes(mut run: Run, turns: u64) -> u64 {
    over(turns, |k| {
        let at = seat(k, run.show.playing);
        let took = kept(playback::take(run, at, 0), &mut run);
        total([took, run.states[at].taken])
    })
}

// Each session in turn.
fn seat(k: u64, playing: usize) -> usize
    ensures { result < 16 }
{
    if playing == 0 {
        return 0;
    }
    k as usize % playing % 16
}

// The run is what the call left. Answers the number that the call refused with; 0 where it did not.
fn kept(moved: Moved, run: &mut Run) -> u64 {
    *run = moved.run;
    number_of(moved.check)
}

// ---- calls that ask of the run: a function for both would be lent the call, with a `requires` on it

pub(crate) fn slacks(run: Run, turns: u64) -> u64 {
    let run = bitten(run);
    over(turns, |k| time_of(spare::slack(clocked(run, k)).spare))
}

pub(crate) fn workaheads(run: Run, turns: u64) -> u64 {
    let run = bitten(run);
    over(
        turns,
        |k| time_of(spare::workahead(clocked(run, k), 0).spare),
    )
}

// A byte of the first session taken, so that its clock can be 0 and 1 by turns.
fn bitten(run: Run) -> Run {
    playback::take(run, 0, 1).run
}

// The run of turn k.
fn clocked(mut run: Run, k: u64) -> Run {
    run.states[0].clock = odd(k);
    run
}

// The time modulo 2^64, or the refusal's number.
fn time_of(spare: Result<i64, Refusal>) -> u64 {
    match spare {
        Ok(t) => t.cast_unsigned(),
        Err(why) => number(why),
    }
}
