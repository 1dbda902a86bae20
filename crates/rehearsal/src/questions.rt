// Questions, which change nothing: what is told of their answers.
use crate::answers::{Answer, Faults, tell_answer, tell_faulty, zeros_from};
use crate::asked::{About, Given};
use crate::files::{tell_file, tell_written};
use crate::given::{counts_of, low, number_from_end};
use crate::output::Page;
use crate::texts::tell_text;
use cost::worst::worst_time;
use parse::part;
use player::Drawn;
use show::refusal::Refusal;
use show::{Session, Show};
use state::State;
use std::io;

// ---- about the show in memory

pub(crate) fn about_show(rt: &impl Print, line: &[u8], about: About, show: Show) -> io::Result<()> {
    let operand = part(line, b' ', 1);
    match about {
        About::Why => tell_answer(
            rt,
            reason::why(show).map_or_else(Answer::Refused, Answer::Reason),
        ),
        About::Load => tell_answer(
            rt,
            reason::load(show).map_or_else(Answer::Refused, Answer::Value),
        ),
        About::Worst(session, blocks) => tell_answer(
            rt,
            worst_time(show, session, blocks).map_or_else(Answer::Refused, Answer::Value),
        ),
        About::Decide => tell_decision(rt, show),
        About::Try => tell_trial(rt, show, counts_of(operand).unwrap_or([0; 16])),
        About::Write(room) => tell_written(rt, show, operand, room),
    }
}

fn tell_decision(rt: &impl Print, show: Show) -> io::Result<()> {
    let d = verdict::decide(show);
    let counts = d.counts.map(u64::from);
    let times = d.times;
    let lists = [counts, times];
    match d.verdict {
        Ok(()) => tell_lists(rt, b" -> accepted #", d.round, &lists, show.playing),
        Err(why) => tell_nothing(rt, why, d.round, &lists),
    }
}

// Counts that are not given are zeros.
fn tell_trial(rt: &impl Print, show: Show, counts: [u32; 16]) -> io::Result<()> {
    let t = trial::tried(show, counts);
    let times = t.times;
    let lists = [times];
    match t.answer {
        Ok(true) => tell_lists(rt, b" -> holds #", t.round, &lists, show.playing),
        Ok(false) => tell_lists(rt, b" -> fails #", t.round, &lists, show.playing),
        Err(why) => tell_nothing(rt, why, t.round, &lists),
    }
}

// Refused, all else is zero.
fn tell_nothing(rt: &impl Print, why: Refusal, round: u64, lists: &[[u64; 16]]) -> io::Result<()> {
    let beside = round != 0 || !zeros_from(0, lists);
    tell_faulty(
        rt,
        Answer::Refused(why),
        Faults {
            beside,
            ..Faults::default()
        },
    )
}

// The places that are used; the others are zeros.
fn tell_lists(
    rt: &impl Print,
    form: &[u8],
    round: u64,
    lists: &[[u64; 16]],
    used: usize,
) -> io::Result<()> {
    let mut page = Page::<1024>::new();
    page.put(form, &[round]);
    for list in lists {
        page.put(b" ", &[]);
        page.put_list(&list[..used.min(16)]);
    }
    let faults = Faults {
        beside: !zeros_from(used, lists),
        ..Faults::default()
    };
    faults.put(&mut page);
    page.tell(rt)
}

// ---- about what a line brings, with no show in memory

pub(crate) fn about_given(rt: &impl Print, line: &[u8], given: Given) -> io::Result<()> {
    let operand = part(line, b' ', 1);
    match given {
        Given::File => tell_file(rt, operand),
        Given::Report => tell_text(rt, report::report, report::TEXT_MOST, operand),
        Given::Explain => tell_text(rt, explain::explain, explain::TEXT_MOST, operand),
        Given::Player => tell_take(rt, drawn_by(line)),
    }
}

// A player's take: P G C R Y B LAYOUT STARTED N.
fn drawn_by(line: &[u8]) -> Drawn {
    let state = State {
        put: number(line, 9),
        taken: number(line, 8),
        clock: number(line, 7),
    };
    let session = Session {
        rate: low(number(line, 6)),
        cushion: low(number(line, 5)),
        buffer: low(number(line, 4)),
        layout: low(number(line, 3)),
    };
    player::take_lent(state, session, number(line, 2) == 1, number(line, 1))
}

// The line was tested for its numbers.
fn number(line: &[u8], back: usize) -> u64 {
    number_from_end(line, back).unwrap_or(0)
}

fn tell_take(rt: &impl Print, drawn: Drawn) -> io::Result<()> {
    let mut page = Page::<128>::new();
    let after = drawn.state;
    Answer::from(drawn.check).put(&mut page);
    page.put(b" # # #\n", &[after.put, after.taken, after.clock]);
    page.tell(rt)
}
