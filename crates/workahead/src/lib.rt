// How far a session is ahead of its player, by its state alone. docs/RULES.md, section 10. Apart from `standing` for the gate's time alone.
#![tactic(auto)]

ghost use Rattle.std.specs.Prelude.{◌*◌, ◌≤◌, ◌<◌, ◌≡◌, nat_abs};
ghost use Rattle.theory.specs.Floor.{Floors};
ghost use Rattle.state.specs.State.{put_most};
ghost use Rattle.workahead.specs.Times.{ahead_by_state};
ghost use Rattle.workahead.specs.Answers.{ahead_for};

use show::Session;
use show::refusal::Refusal;
use state::State;

// How many µs a time is, above zero or below.
pub fn magnitude(t: i64) -> u64
    ensures { result ≡ nat_abs t }
{
    t.unsigned_abs()
}

// How far a session in this state is ahead of its player: 7 of a rate of 0, 19 of a state that no run has.
#[tactic(auto, unfolding(crate::specs::Answers::ahead_for))]
pub fn ahead_of(session: Session, state: State) -> Result<i64, Refusal>
    ensures { result ≡ ahead_for session state }
{
    if session.rate == 0 {
        return Err(Refusal::SessionLimits(0));
    }
    if State::PUT_MOST < state.put || State::PUT_MOST * 1_000_000 < state.clock {
        return Err(Refusal::Damaged);
    }
    Ok(ahead(state, session))
}

// x / r rounded down: toward zero, and one less where the remainder is below zero. The rule of docs/DECISIONS.md, "Forms", has it worked out
// for both signs: `div_euclid` would do it unseen.
fn floor_div(x: i64, r: u32) -> i64
    requires { 0 < r }
    ensures { Floors x r result }
{
    let d = i64::from(r);
    let q = x / d;
    if x % d < 0 {
        return q - 1;
    }
    q
}

// ((P - Y) x 1,000,000 - C) / R in µs.
fn ahead(state: State, session: Session) -> i64
    requires put_le_put_most { (state.put ≤ put_most) × (state.clock ≤ put_most * 1000000) }
    requires rate_nonzero { 0 < session.rate }
    ensures { result ≡ ahead_by_state session state }
{
    let bytes = state.put as i64 - i64::from(session.cushion);
    let microbytes = bytes * 1_000_000 - state.clock as i64;
    floor_div(microbytes, session.rate)
}
