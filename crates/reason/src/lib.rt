// Why a show is refused with 8, and how loaded its drive is: docs/RULES.md, section 11.
#![tactic(auto)]

mod work;

ghost use Rattle.std.specs.Prelude.{◌≡◌, Ok};
ghost use Rattle.show.specs.Limits.{ShowWithin, buffer_most};
ghost use Rattle.verdict.specs.Answers.{set_of};
ghost use Rattle.theory.specs.Counts.{Smallest};
ghost use Rattle.theory.specs.Reasons.{widened};
ghost use Rattle.theory.specs.Shows.{load_of};
ghost use Rattle.reason.specs.Answers.{ReasonIs, loaded_of};
ghost use Rattle.reason.specs.Steps.{widest_of};

use crate::work::weigh;
use show::refusal::Refusal;
use show::{Session, Show};

// Why a show is refused with 8. Too small a buffer comes with the lowest session that has one, and with the size that it needs.
#[derive(Clone, Copy)]
pub enum Reason {
    Overload,
    Beyond,
    Buffer { session: usize, size: u64 },
}

// Why a show is refused: 2, 5, 6, 7, then the reason for 8; none of an accepted show.
pub fn why(show: Show) -> Result<Option<Reason>, Refusal>
    ensures { ReasonIs show result }
{
    show.check()?;
    let work = weigh(&show);
    if 1 <= work.whole {
        return Ok(Some(Reason::Overload));
    }
    let decision = verdict::decide(widest(&show));
    let Ok(()) = decision.verdict else {
        return Ok(Some(Reason::Beyond));
    };
    Ok(lowest_short(&show, &decision.counts))
}

// The show with every buffer as large as there is.
fn widest(show: &Show) -> Show
    requires { ShowWithin show.now }
    ensures { result ≡ widest_of show.now }
{
    let mut sessions = Show::nothing().sessions;
    for i in 0..show.playing {
        sessions[i] = Session {
            buffer: Session::BUFFER_MOST,
            ..show.sessions[i]
        };
    }
    Show { sessions, ..*show }
}

// The first session whose count does not fit its buffer.
fn lowest_short(show: &Show, counts: &[u32; 16]) -> Option<Reason>
    requires show_within { ShowWithin show.now }
    requires smallest { Smallest (widened buffer_most (load_of show.now)) (set_of counts.now) }
    ensures { ReasonIs show.now (Ok result) }
{
    let block = show.drive.block as u64;
    for i in 0..show.playing {
        let session = show.sessions[i];
        let blocks = (counts[i] as u64 + 1) * block;
        let size = blocks + session.cushion as u64;
        if (session.buffer as u64) < size {
            return Some(Reason::Buffer { session: i, size });
        }
    }
    None
}

// The load of the drive: 2, 5, 6, 7, then the tenths of a per cent.
pub fn load(show: Show) -> Result<u64, Refusal>
    ensures { result ≡ loaded_of show }
{
    show.check()?;
    let work = weigh(&show);
    let whole = work.whole * 1_000;
    let part = work.part * 1_000 / work.full;
    Ok(whole + part)
}
