// Answers: the short ones as values, what is not as it must be, and a show, put on a page.
use crate::output::Page;
use reason::Reason;
use scheduler::Choice;
use show::refusal::Refusal;
use show::{Drive, Show};
use std::io;
use workahead::magnitude;

// ---- short answers

// A `Time` may be below zero. A refusal is one of the answers, and no `Err`: it has its words like the others.
#[derive(Clone, Copy)]
pub(crate) enum Answer {
    Done,
    Idle,
    Read(usize),
    Value(u64),
    Time(i64),
    Reason(Option<Reason>),
    Refused(Refusal),
}

impl From<Result<(), Refusal>> for Answer {
    fn from(check: Result<(), Refusal>) -> Answer {
        match check {
            Ok(()) => Answer::Done,
            Err(why) => Answer::Refused(why),
        }
    }
}

impl From<Choice> for Answer {
    fn from(choice: Choice) -> Answer {
        match choice {
            Choice::Idle => Answer::Idle,
            Choice::Read(session) => Answer::Read(session),
            Choice::Refused(why) => Answer::Refused(why),
        }
    }
}

impl Answer {
    pub(crate) fn put<const N: usize>(self, page: &mut Page<N>) {
        match self {
            Answer::Done => page.put(b" -> ok", &[]),
            Answer::Idle => page.put(b" -> idle", &[]),
            Answer::Read(session) => page.put(b" -> read #", &[session as u64]),
            Answer::Value(n) => page.put(b" -> value #", &[n]),
            Answer::Time(t) if t < 0 => page.put(b" -> value -#", &[magnitude(t)]),
            Answer::Time(t) => page.put(b" -> value #", &[magnitude(t)]),
            Answer::Reason(None) => page.put(b" -> none", &[]),
            Answer::Reason(Some(Reason::Overload)) => page.put(b" -> overload", &[]),
            Answer::Reason(Some(Reason::Beyond)) => page.put(b" -> beyond", &[]),
            Answer::Reason(Some(Reason::Buffer { session, size })) => {
                page.put(b" -> buffer # #", &[session as u64, size])
            }
            Answer::Refused(why) => page.put(b" -> refused # #", &told_of(why)),
        }
    }
}

// The number of a refusal and its place.
pub(crate) fn told_of(why: Refusal) -> [u64; 2] {
    let told = why.told();
    [told.number as u64, told.place as u64]
}

pub(crate) fn tell_answer(rt: &impl Print, answer: Answer) -> io::Result<()> {
    tell_faulty(rt, answer, Faults::default())
}

// The answer, what is not as it must be, and the end of the line.
pub(crate) fn tell_faulty(rt: &impl Print, answer: Answer, faults: Faults) -> io::Result<()> {
    let mut page = Page::<128>::new();
    answer.put(&mut page);
    faults.put(&mut page);
    page.tell(rt)
}

// ---- what is not as it must be

#[derive(Clone, Copy, Default)]
pub(crate) struct Faults {
    pub beside: bool,
    pub changed: bool,
    pub differs: bool,
    pub granted: bool,
    pub note: bool,
    pub refused: bool,
    pub unlike: bool,
}

impl Faults {
    // A word for each, and the end of the line.
    pub(crate) fn put<const N: usize>(self, page: &mut Page<N>) {
        page.put_if(self.beside, b" beside");
        page.put_if(self.changed, b" changed");
        page.put_if(self.differs, b" differs");
        page.put_if(self.granted, b" granted");
        page.put_if(self.note, b" note");
        page.put_if(self.refused, b" refused");
        page.put_if(self.unlike, b" unlike");
        page.put(b"\n", &[]);
    }
}

// The end of a line that has no more to say than what is not as it must be.
pub(crate) fn end(rt: &impl Print, faults: Faults) -> io::Result<()> {
    let mut page = Page::<64>::new();
    faults.put(&mut page);
    page.tell(rt)
}

// Whether a second call is refused as the first was, by what is told of both: nothing in the libraries compares refusals.
pub(crate) fn alike(first: Refusal, second: Result<(), Refusal>) -> bool {
    match second {
        Ok(()) => false,
        Err(why) => told_of(first) == told_of(why),
    }
}

// Whether all behind the first n of each list are zero.
pub(crate) fn zeros_from(n: usize, lists: &[[u64; 16]]) -> bool {
    lists
        .iter()
        .all(|list| list.iter().skip(n).all(|&x| x == 0))
}

// ---- a show, as a script gives it

// After a form.
pub(crate) fn tell_show(rt: &impl Print, form: &[u8], show: Show) -> io::Result<()> {
    let mut page = Page::<2048>::new();
    let Drive { block, cylinder } = show.drive;
    let head = [
        block as u64,
        cylinder as u64,
        show.laid as u64,
        show.playing as u64,
    ];
    page.put(form, &[]);
    page.put(b"#,#,#,#", &head);
    for y in &show.layouts {
        let four = [y.longest, y.track, y.time, y.rotation];
        page.put(b";#,#,#,#", &four.map(u64::from));
    }
    for x in &show.sessions {
        let four = [x.rate, x.cushion, x.buffer, x.layout];
        page.put(b";#,#,#,#", &four.map(u64::from));
    }
    page.tell(rt)
}
