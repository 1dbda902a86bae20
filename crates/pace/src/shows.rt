// Jobs on a show.
use crate::sums::{last, number, number_of, odd, over, total};
use reason::Reason;
use show::Show;

// The loop alone. Those below differ in the call: one function for them would be lent it, with a `requires` on it.
pub(crate) fn nothings(turns: u64) -> u64 {
    over(turns, |k| k)
}

pub(crate) fn decides(show: Show, turns: u64) -> u64 {
    over(turns, |k| decide(cushioned(show, k)))
}

pub(crate) fn reasons(show: Show, turns: u64) -> u64 {
    over(turns, |k| reason(cushioned(show, k)))
}

pub(crate) fn opens(show: Show, turns: u64) -> u64 {
    over(turns, |k| open(cushioned(show, k)))
}

// The show of turn k: its first cushion is as it was or one larger, by turns.
fn cushioned(mut show: Show, k: u64) -> Show {
    let first = show.sessions[0].cushion;
    show.sessions[0].cushion = first.wrapping_add(odd(k) as u32);
    show
}

fn decide(show: Show) -> u64 {
    let decision = verdict::decide(show);
    let at = last(show.playing);
    total([
        number_of(decision.verdict),
        decision.round,
        decision.counts[at] as u64,
        decision.times[at],
    ])
}

fn reason(show: Show) -> u64 {
    match reason::why(show) {
        Ok(None) => 0,
        Ok(Some(Reason::Overload)) => 1,
        Ok(Some(Reason::Beyond)) => 2,
        Ok(Some(Reason::Buffer { session, size })) => total([3, session as u64, size]),
        Err(why) => number(why),
    }
}

fn open(show: Show) -> u64 {
    let opened = run::open(show);
    total([number_of(opened.check), opened.run.left as u64])
}
