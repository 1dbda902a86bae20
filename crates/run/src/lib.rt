// A run: what the server keeps of a show that plays, and its opening.
#![tactic(auto)]

ghost use Rattle.std.specs.Prelude.{◌≡◌, ◌≤◌};
ghost use Rattle.state.specs.State.{first_state};
ghost use Rattle.run.specs.Run.{left_in, with_cycle};
ghost use Rattle.run.specs.Opening.{OpenIs, table_order, first_run, no_run};

use show::refusal::Refusal;
use show::{Session, Show};
use state::State;
use verdict::decide;

// The show as it was given; each session's count and state; the cycle's order, its place in it, and what is left of the count there.
// Places from `show.playing` on are not looked at. Rows side by side and not a row of structs: `tried` takes the counts alone, `left_in`
// counts and order, and theorem Unseen (crates/promises/specs) tells what is looked at row by row.
#[derive(Clone, Copy)]
pub struct Run {
    pub show: Show,
    pub counts: [u32; 16],
    pub states: [State; 16],
    pub order: [u32; 16],
    pub place: usize,
    pub left: u32,
    pub underway: Option<usize>,
    pub started: bool,
}

impl Run {
    // The longest time that one call lets pass, in µs.
    pub const SPAN_MOST: u64 = 1_000_000_000;

    // Another moment of the cycle, all else as it was.
    pub fn with_cycle(self, place: usize, left: u32, underway: Option<usize>) -> Run
        ensures { result ≡ with_cycle self place left underway }
    {
        Run {
            place,
            left,
            underway,
            ..self
        }
    }
}

// What a call on a run answers, and the run after it: the next one, or the one that was given.
// A struct and no Result: theorem HandsBack (crates/promises/specs/Runs.antt) says which run stands beside a refusal.
#[derive(Clone, Copy)]
pub struct Moved {
    pub check: Result<(), Refusal>,
    pub run: Run,
}

// A run that can begin, or why there is none; refused, the run is zeros.
// A struct and no Result: theorem Empty (crates/promises/specs/Refusals.antt) says which run stands beside a refusal.
#[derive(Clone, Copy)]
pub struct Opened {
    pub check: Result<(), Refusal>,
    pub run: Run,
}

// What is left of a count when an operation begins at a place of an order. Past the last place stands session 0; a number that is no
// session's has no count, and 0 is left.
#[tactic(auto, unfolding(crate::specs::Run::left_in))]
pub fn left_in(counts: [u32; 16], order: [u32; 16], place: usize) -> u32
    ensures { result ≡ left_in counts order place }
{
    let seat = order.get(place).copied().unwrap_or(0);
    counts.get(seat as usize).copied().unwrap_or(0)
}

// The run of an accepted show: 2, 5, 6, 7, 8.
pub fn open(show: Show) -> Opened
    ensures { OpenIs show result }
{
    let decision = decide(show);
    if let Err(why) = decision.verdict {
        return Opened {
            check: Err(why),
            run: no_run(),
        };
    }
    Opened {
        check: Ok(()),
        run: first_run(show, decision.counts),
    }
}

// A session begins empty, its clock at 0.
fn first_state(session: Session) -> State
    ensures { result ≡ first_state session }
{
    State {
        put: 0,
        taken: 0,
        clock: 0,
    }
}

// Each session in its first state, and zeros above; nothing under way, and an operation to begin at the first place.
#[tactic(auto, unfolding(crate::specs::Opening::first_run))]
fn first_run(show: Show, counts: [u32; 16]) -> Run
    requires { show.playing ≤ 16 }
    ensures { result ≡ first_run show counts }
{
    let order = table_order(show.playing);
    let none = State {
        put: 0,
        taken: 0,
        clock: 0,
    };
    let mut states = [none; 16];
    for i in 0..show.playing {
        states[i] = first_state(show.sessions[i]);
    }
    Run {
        show,
        counts,
        states,
        order,
        place: 0,
        left: left_in(counts, order, 0),
        underway: None,
        started: false,
    }
}

fn table_order(playing: usize) -> [u32; 16]
    requires { playing ≤ 16 }
    ensures { result ≡ table_order playing }
{
    let mut order = [0; 16];
    for i in 0..playing {
        order[i] = i as u32;
    }
    order
}

#[tactic(auto, unfolding(crate::specs::Opening::no_run))]
fn no_run() -> Run
    ensures { result ≡ no_run }
{
    first_run(Show::nothing(), [0; 16])
}
