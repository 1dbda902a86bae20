// The cycle: which read begins.
ghost use Rattle.std.specs.Prelude.{◌≡◌, ◌<◌};
ghost use Rattle.run.specs.Sound.{SoundRun};
ghost use Rattle.run.specs.Steps.{idled, left_after};
ghost use Rattle.scheduler.specs.Answers.{arrived};

use crate::{Choice, Chosen};
use run::{Run, left_in};
use show::refusal::Refusal;
use state::State;

// Nobody has room: an operation is to begin at the place.
#[tactic(auto, unfolding(run::specs::Steps::idled))]
pub(crate) fn idle(run: Run) -> Run
    ensures { result ≡ idled run }
{
    Run {
        left: left_in(run.counts, run.order, run.place),
        ..run
    }
}

// What is left where k were skipped: a fresh operation's if any was.
pub(crate) fn left_after(k: usize, left: u32, fresh: u32) -> u32
    ensures { result ≡ left_after k left fresh }
{
    if k == 0 { left } else { fresh }
}

// The read of the session at a place, with so many left, unless it would pass the limit on P.
#[tactic(auto, unfolding(crate::specs::Answers::arrived, run::specs::Steps::begun))]
pub(crate) fn arrive(run: Run, place: usize, left: u32) -> Chosen
    requires sound_run { SoundRun run }
    requires place_lt_playing { place < run.show.playing }
    ensures { result ≡ arrived run place left }
{
    let seat = run.order[place] as usize;
    if State::PUT_MOST < run.states[seat].put + u64::from(run.show.drive.block) {
        return Chosen {
            choice: Choice::Refused(Refusal::PutLimit),
            run,
        };
    }
    Chosen {
        choice: Choice::Read(seat),
        run: Run {
            place,
            left,
            underway: Some(seat),
            ..run
        },
    }
}
