// The calls on a run, and what each answers.
use crate::answers::Answer;
use crate::asked::Call;
use run::{Moved, Run};
use scheduler::Chosen;
use show::Show;
use show::refusal::Refusal;
use spare::Spared;

// What a call answers, and the run after it.
#[derive(Clone, Copy)]
pub(crate) struct Called {
    pub answer: Answer,
    pub run: Run,
}

impl From<Moved> for Called {
    fn from(moved: Moved) -> Called {
        Called {
            answer: Answer::from(moved.check),
            run: moved.run,
        }
    }
}

impl From<Chosen> for Called {
    fn from(chosen: Chosen) -> Called {
        Called {
            answer: Answer::from(chosen.choice),
            run: chosen.run,
        }
    }
}

impl From<Spared> for Called {
    fn from(spared: Spared) -> Called {
        Called {
            answer: spared.spare.map_or_else(Answer::Refused, Answer::Time),
            run: spared.run,
        }
    }
}

pub(crate) fn answered(call: Call, run: Run) -> Called {
    match call {
        Call::Choose => Called::from(scheduler::choose(run)),
        Call::Slack => Called::from(spare::slack(run)),
        Call::Workahead(session) => Called::from(spare::workahead(run, session)),
        Call::Start => Called::from(spare::start(run)),
        Call::Pass(d) => Called::from(playback::pass(run, d)),
        Call::Finish(d) => Called::from(playback::finish(run, d)),
        Call::Take(session, bytes) => Called::from(playback::take(run, session, bytes)),
    }
}

// A file that was refused is not opened: what reading it said stands.
pub(crate) fn opened(show: Result<Show, Refusal>) -> Result<Run, Refusal> {
    let opened = run::open(show?);
    opened.check?;
    Ok(opened.run)
}
