// What one session holds: the bytes put and taken, and its clock. docs/RULES.md, section 9.
#![tactic(auto)]

ghost use Rattle.show.specs.Limits.{Tells};
ghost use Rattle.state.specs.State.{Room, Waiting, StateSound};

use show::Session;

// P, G and C of a session: the bytes put and taken, and its clock in microbytes.
#[derive(Clone, Copy)]
pub struct State {
    pub put: u64,
    pub taken: u64,
    pub clock: u64,
}

impl State {
    pub const PUT_MOST: u64 = 1_099_511_627_776;

    // P, G and C in order for such a session, before the start or after.
    pub fn within(self, session: Session, started: bool) -> bool
        ensures { Tells result (StateSound started session self) }
    {
        self.put <= State::PUT_MOST
            && self.taken <= self.put
            && self.put - self.taken <= u64::from(session.buffer)
            && self.clock <= self.taken * 1_000_000
            && (started || self.waits())
    }

    // P + A - G is at most B: one more block has room. In 128 bits, as a state given by anyone may hold any numbers.
    pub fn room(self, session: Session, block: u32) -> bool
        ensures { Tells result (Room block session self) }
    {
        u128::from(self.put) + u128::from(block)
            <= u128::from(self.taken) + u128::from(session.buffer)
    }

    fn waits(self) -> bool
        ensures { Tells result (Waiting self) }
    {
        self.taken == 0 && self.clock == 0
    }
}
