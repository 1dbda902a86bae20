// A player's side of a take: one session's state, and no run around it.
#![tactic(auto)]

ghost use Rattle.std.specs.Prelude.{◌≡◌};
ghost use Rattle.player.specs.Answers.{drawn_of};

use show::Session;
use show::refusal::Refusal;
use state::State;

// What a take answers, and the state after it: the next one, or the one that was given.
// A struct and no Result: theorem HandsBack (crates/promises/specs/Runs.antt) says which state stands beside a refusal.
#[derive(Clone, Copy)]
pub struct Drawn {
    pub check: Result<(), Refusal>,
    pub state: State,
}

// n bytes taken of a session in such a state: 19, 12, 10. State, session and start go together in three calls that are promised so.
#[tactic(auto, unfolding(crate::specs::Answers::take_check, crate::specs::Answers::drawn_of))]
pub fn take_from(state: State, session: Session, started: bool, n: u64) -> Drawn
    ensures { result ≡ drawn_of state session started n }
{
    let refused = |why| Drawn {
        check: Err(why),
        state,
    };
    if !state.within(session, started) {
        return refused(Refusal::Damaged);
    }
    if !started {
        return refused(Refusal::NotStarted);
    }
    if state.put - state.taken < n {
        return refused(Refusal::TooMuch);
    }
    Drawn {
        check: Ok(()),
        state: State {
            taken: state.taken + n,
            ..state
        },
    }
}

// The same on a state that the player lends.
pub fn take(state: &mut State, session: Session, started: bool, n: u64) -> Result<(), Refusal>
    ensures { (result ≡ (drawn_of state.old session started n).check) × (state.new ≡ (drawn_of state.old session started n).state) }
{
    let drawn = take_from(*state, session, started, n);
    *state = drawn.state;
    drawn.check
}

// For a caller that has nothing to lend: plain parameters. What `take_from` answers, by `take`: both names are promised (docs/PROMISES.md).
pub fn take_lent(given: State, session: Session, started: bool, n: u64) -> Drawn
    ensures { result ≡ drawn_of given session started n }
{
    let mut lent = given;
    let check = take(&mut lent, session, started, n);
    Drawn { check, state: lent }
}
