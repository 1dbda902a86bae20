// The desk that a script is rehearsed at: what there is so far, and what each line makes of it.
use crate::answers::{Answer, tell_answer};
use crate::asked::{About, Given, Word, asked_of};
use crate::calls::{answered, opened};
use crate::fields::poke;
use crate::given::memory_of;
use crate::output::{Page, say};
use crate::questions::{about_given, about_show};
use crate::record::tell_record;
use crate::shows::{junked, read_show};
use parse::{part, same};
use run::Run;
use show::Show;
use show::refusal::Refusal;
use std::io;

// A longer line is malformed.
const LINE_MOST: usize = 65_535;

// The show in memory, or why its file was refused; the run, and the one that is remembered.
#[derive(Clone, Copy, Default)]
struct Case {
    show: Option<Result<Show, Refusal>>,
    run: Option<Run>,
    kept: Option<Run>,
}

// No case is open; after a malformed line all is passed over until the next case; a case is open.
#[derive(Clone, Copy)]
enum Stage {
    Between,
    Over,
    Open(Case),
}

// `lines`: the lines so far.
#[derive(Clone, Copy)]
pub(crate) struct Desk {
    lines: u64,
    stage: Stage,
}

impl Desk {
    pub(crate) fn new() -> Desk {
        Desk {
            lines: 0,
            stage: Stage::Between,
        }
    }
}

// The desk after a line.
pub(crate) fn line(rt: &impl Print, bytes: &[u8], desk: Desk) -> io::Result<Desk> {
    let lines = desk.lines.wrapping_add(1);
    if matches!(desk.stage, Stage::Over) && !same(part(bytes, b' ', 0), b"case") {
        return Ok(Desk { lines, ..desk });
    }
    let Some(step) = step_of(bytes, desk.stage) else {
        tell_error(rt, lines)?;
        return Ok(Desk {
            lines,
            stage: Stage::Over,
        });
    };
    say(rt, bytes)?;
    tell_reply(rt, bytes, step.reply)?;
    Ok(Desk {
        lines,
        stage: step.stage,
    })
}

fn tell_error(rt: &impl Print, lines: u64) -> io::Result<()> {
    let mut page = Page::<64>::new();
    page.put(b"error #\n", &[lines]);
    page.tell(rt)
}

// ---- what a line does

// What is told behind a line, which is written first, once it is known to be good: nothing; what a call answers, and under it the record,
// where there is a run; a question's answer.
#[derive(Clone, Copy)]
enum Reply {
    Plain,
    Called(Answer, Option<Run>),
    About(About, Result<Show, Refusal>),
    Given(Given),
}

#[derive(Clone, Copy)]
struct Step {
    stage: Stage,
    reply: Reply,
}

// None: the line is malformed, by its form or by what there is.
fn step_of(line: &[u8], stage: Stage) -> Option<Step> {
    if LINE_MOST < line.len() {
        return None;
    }
    match (asked_of(line)?, stage) {
        (Word::Case, _) => Some(plain(Stage::Open(Case::default()))),
        (Word::End, Stage::Open(_)) => Some(plain(Stage::Between)),
        (word, Stage::Open(case)) => step_in(word, line, case),
        _ => None,
    }
}

fn plain(stage: Stage) -> Step {
    Step {
        stage,
        reply: Reply::Plain,
    }
}

// Each word takes what it needs from the case. Where a case begins and ends is said above.
fn step_in(word: Word, line: &[u8], case: Case) -> Option<Step> {
    let operand = part(line, b' ', 1);
    let mut next = case;
    let mut reply = Reply::Plain;
    match word {
        Word::Show => next.show = Some(read_show(operand)),
        Word::Memory => next.show = Some(Ok(memory_of(operand)?)),
        Word::Junk => next.show = Some(case.show?.map(junked)),
        Word::Open => {
            let run = opened(case.show?);
            next.run = run.ok();
            reply = Reply::Called(Answer::from(run.map(|_| ())), next.run);
        }
        Word::Call(call) => {
            let called = answered(call, case.run?);
            next.run = Some(called.run);
            reply = Reply::Called(called.answer, next.run);
        }
        Word::Poke(field) => next.run = Some(poke(case.run?, field, line)),
        Word::Save => next.kept = Some(case.run?),
        Word::Back => next.run = Some(case.kept?),
        Word::About(about) => reply = Reply::About(about, case.show?),
        Word::Given(given) => reply = Reply::Given(given),
        Word::Case | Word::Policy | Word::End => {}
    }
    Some(Step {
        stage: Stage::Open(next),
        reply,
    })
}

// ---- what is told of it

fn tell_reply(rt: &impl Print, line: &[u8], reply: Reply) -> io::Result<()> {
    match reply {
        Reply::Plain => say(rt, b"\n"),
        Reply::Called(answer, None) => tell_answer(rt, answer),
        Reply::Called(answer, Some(run)) => {
            tell_answer(rt, answer)?;
            tell_record(rt, run)
        }
        Reply::About(about, Ok(show)) => about_show(rt, line, about, show),
        Reply::About(_, Err(why)) => tell_answer(rt, Answer::Refused(why)),
        Reply::Given(given) => about_given(rt, line, given),
    }
}
