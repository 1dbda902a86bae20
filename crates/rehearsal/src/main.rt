// Drives a run by a script: reads it from standard input and writes each line again, with what the call on it answers and the whole run
// record after it (docs/SCRIPTS.md). A line that is none gets `error` and its number, and the script goes on with the next case.
// A failed read or write is told on standard error.
#![tactic(auto)]

mod answers;
mod asked;
mod calls;
mod desk;
mod fields;
mod files;
mod given;
mod output;
mod questions;
mod record;
mod shows;
mod texts;

ghost use Rattle.std.specs.Prelude.{◌≡◌, ◌≤◌, Some};

use crate::desk::{Desk, line};
use crate::output::complain;
use input::read_at;
use parse::find;
use std::io;
use std::io::Read;

// The longest line and its newline.
const ROOM: usize = 65_536;

// A part of the room: a range whose bounds the proofs know.
#[derive(Clone, Copy)]
struct Span {
    from: usize,
    to: usize,
    ghost inside: { (from ≤ to) × (to ≤ 65536) },
}

// The next line, where there is one to answer, and the bytes that are held after it. `rest`: more of a line that fills the room is still to
// come. `more`: more may come.
#[derive(Clone, Copy)]
struct Turn {
    line: Option<Span>,
    held: Span,
    rest: bool,
    more: bool,
}

fn main(rt: HostRuntime) {
    let mut room = [0u8; ROOM];
    if rehearse(&rt, &mut rt.stdin(), &mut room).is_err() {
        complain(&rt, "rehearsal: the answers could not be written\n");
    }
}

// A proved loop has to end, and nothing says that a script does: so the turns are counted, to a number that no script uses up.
fn rehearse<R: Read>(
    rt: &(impl Print + Eprint),
    input: &mut R,
    room: &mut [u8; ROOM],
) -> io::Result<()> {
    let mut desk = Desk::new();
    let mut turn = first();
    for _ in 0..u64::MAX {
        turn = next_line(rt, input, room, turn.held, turn.rest);
        if let Some(Span { from, to }) = turn.line {
            desk = line(rt, &room[from..to], desk)?;
        }
        if !turn.more {
            break;
        }
    }
    Ok(())
}

// Nothing is held yet.
fn first() -> Turn {
    Turn {
        line: None,
        held: Span { from: 0, to: 0 },
        rest: false,
        more: true,
    }
}

// The next line that is whole; where there is none, what is held goes to the start of the room, and more is read.
fn next_line<R: Read>(
    rt: &impl Eprint,
    input: &mut R,
    room: &mut [u8; ROOM],
    held: Span,
    rest: bool,
) -> Turn {
    let Span { from, to } = held;
    let end = from + find(&room[from..to], b'\n');
    if end < to {
        return Turn {
            line: (!rest).then_some(Span { from, to: end }),
            held: Span { from: end + 1, to },
            rest: false,
            more: true,
        };
    }
    room.copy_within(from..to, 0);
    read_on(
        rt,
        input,
        room,
        Span {
            from: 0,
            to: to - from,
        },
        rest,
    )
}

// Reads once, after the bytes that are held. A line that fills the room is answered at once, and what still comes of it is passed over.
fn read_on<R: Read>(
    rt: &impl Eprint,
    input: &mut R,
    room: &mut [u8; ROOM],
    held: Span,
    rest: bool,
) -> Turn {
    if held.to == ROOM {
        return last(held, rest, true);
    }
    let came = read_at(input, room, held.to);
    if came.failed {
        complain(rt, "rehearsal: standard input could not be read\n");
    }
    if came.len == 0 {
        return last(held, rest, false);
    }
    Turn {
        line: None,
        held: Span {
            from: 0,
            to: held.to + came.len,
        },
        rest,
        more: true,
    }
}

// All that is held is a line, but for none.
fn last(held: Span, rest: bool, more: bool) -> Turn
    ensures line { (s : Span) → result.line ≡ Some s → s.to ≤ held.to }
    ensures held { result.held.to ≤ held.to }
{
    Turn {
        line: (!rest && held.to != 0).then_some(held),
        held: Span { from: 0, to: 0 },
        rest: more,
        more,
    }
}
