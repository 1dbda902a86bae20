// The test of refusal 19: whether a run record is sound. docs/RULES.md, section 9.
#![tactic(auto)]

ghost use Rattle.std.specs.Prelude.{ℕ, ◌≡◌, ◌+◌, ◌≤◌, ◌<◌, Some};
ghost use Rattle.show.specs.Limits.{Tells};
ghost use Rattle.state.specs.State.{Room, put_most};
ghost use Rattle.run.specs.Run.{playing};
ghost use Rattle.run.specs.Sound.{NamesEach, CycleSound, Resting, Turning, MayRead};
ghost use Rattle.run_test.specs.Answers.{test_of};

use run::Run;
use show::Session;
use state::State;
use trial::tried;

// What the test of a record tells. An enum and no bool: the rule of docs/DECISIONS.md, "Forms", has each call take it apart by `let .. else`.
// So a sound run is no type of its own either, and `SoundRun` stands in what the functions behind the test require.
#[derive(Clone, Copy)]
pub enum Test {
    Sound,
    Damaged,
}

// Damaged exactly if a line of docs/RULES.md, section 9, fails. The counts are tried first: nothing else may be looked at before the show.
// The loop stands here so that the record is not copied for it.
pub fn test_run(run: Run) -> Test
    ensures { result ≡ test_of run }
{
    let playing = run.show.playing;
    if !tried(run.show, run.counts).answer.unwrap_or(false) {
        return Test::Damaged;
    }
    for i in 0..playing {
        if !run.states[i].within(run.show.sessions[i], run.started) {
            return Test::Damaged;
        }
    }
    if names_each(run.order, playing) && is_cycle_sound(&run) {
        Test::Sound
    } else {
        Test::Damaged
    }
}

// Whether the first places of an order name each of so many sessions once: each is one of them, and none was named before. An order is
// sixteen places, of which the first are looked at.
fn names_each(order: [u32; 16], playing: usize) -> bool
    requires { playing ≤ 16 }
    ensures { Tells result (NamesEach order playing) }
{
    let mut named = [false; 16];
    for session in &order[..playing] {
        let session = *session as usize;
        if playing <= session || named[session] {
            return false;
        }
        named[session] = true;
    }
    true
}

// Whether the cycle is where it may be, once the order is known to name each session once. `playing ≤ 16` is a clause of
// four functions here, `NamesEach` of three: a type for an order that was tested would be taken apart again at each place looked up in it.
fn is_cycle_sound(run: &Run) -> bool
    requires playing_bound { playing run.now ≤ 16 }
    requires names_each { NamesEach run.now.order (playing run.now) }
    ensures { Tells result (CycleSound run.now) }
{
    if run.show.playing == 0 {
        rests(run)
    } else {
        turns(run) && may_read(run)
    }
}

// Whether a cycle of nobody is at its beginning.
fn rests(run: &Run) -> bool
    ensures { Tells result (Resting run.now) }
{
    run.place == 0 && run.left == 0 && run.underway.is_none()
}

// Whether the cycle is at one of its places, and 1 to M of the count there is left.
fn turns(run: &Run) -> bool
    requires playing_bound { playing run.now ≤ 16 }
    requires names_each { NamesEach run.now.order (playing run.now) }
    ensures { Tells result (Turning run.now) }
{
    run.place < run.show.playing
        && (1..=run.counts[run.order[run.place] as usize]).contains(&run.left)
}

// Whether a read that is under way is one of the session at the place, and may be.
fn may_read(run: &Run) -> bool
    requires playing_bound { playing run.now ≤ 16 }
    requires names_each { NamesEach run.now.order (playing run.now) }
    requires place { run.now.place < playing run.now }
    ensures { Tells result ((i : ℕ) → run.now.underway ≡ Some i → MayRead run.now i) }
{
    let seat = run.order[run.place] as usize;
    match run.underway {
        None => true,
        Some(read) => {
            read == seat
                && takes_one(
                    run.states[seat],
                    run.show.sessions[seat],
                    run.show.drive.block,
                )
        }
    }
}

// One more block has room, and keeps to the limit on P.
fn takes_one(state: State, session: Session, block: u32) -> bool
    ensures { Tells result (Room block session state × (state.put + block ≤ put_most)) }
{
    state.room(session, block) && state.put <= State::PUT_MOST - u64::from(block)
}
