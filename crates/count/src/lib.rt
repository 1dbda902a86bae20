// How many blocks a session is asked for over a time, and whether its buffer takes them: docs/RULES.md, section 7.
#![tactic(auto)]

mod span;

ghost use Rattle.std.specs.Prelude.{◌≡◌};
ghost use Rattle.show.specs.Limits.{Tells};
ghost use Rattle.count.specs.Answers.{BlockWithin, Buffered, need_of};

use crate::span::{ahead, split};
use show::refusal::Refusal;
use show::{Drive, Session};

// The drive's limits of a block, without a drive: what tests a block alone would be one more public function of show.
fn block_within(block: u32) -> bool
    ensures { Tells result (BlockWithin block) }
{
    (Drive::BLOCK_LEAST..=Drive::BLOCK_MOST).contains(&block) && block % Drive::BLOCK_STEP == 0
}

// The least count of blocks that is ahead of the rate over t µs: 5 where the block is outside its limits, then 7 where the rate is.
pub fn need(rate: u32, block: u32, t: u64) -> Result<u64, Refusal>
    ensures { result ≡ need_of rate block t }
{
    if !block_within(block) {
        return Err(Refusal::DriveLimits);
    }
    if !(Session::RATE_LEAST..=Session::RATE_MOST).contains(&rate) {
        return Err(Refusal::SessionLimits(0));
    }
    let span = split(block, t);
    Ok(ahead(rate, span))
}

// Whether the session's buffer takes its cushion, the count and one block more. No limit is tested: of any numbers of 32 bits the sum fits 64.
pub fn fits(session: Session, block: u32, count: u32) -> bool
    ensures { Tells result (Buffered block session count) }
{
    let blocks = (count as u64 + 1) * (block as u64);
    let needed = blocks + session.cushion as u64;
    needed <= session.buffer as u64
}
