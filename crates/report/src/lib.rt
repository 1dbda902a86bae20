// The calculator's answer to a show file, as text in a lent buffer. docs/RULES.md, section 8.
#![tactic(auto)]

ghost use Rattle.std.specs.Prelude.{◌≡◌, ◌+◌, ◌*◌, ◌≤◌, length};
ghost use Rattle.theory.specs.Counts.{round_time};
ghost use Rattle.theory.specs.Shows.{load_of};
ghost use Rattle.verdict.specs.Answers.{set_of};
ghost use Rattle.text.specs.Lines.{refused_text};
ghost use Rattle.text.specs.Puts.{FitsAt, Put};
ghost use Rattle.text.specs.Told.{Texted};
ghost use Rattle.report.specs.Text.{four_line, session_lines, accepted_text};
ghost use Rattle.report.specs.Answers.{TextIs, ReportIs, text_most};
ghost use Rattle.report.specs.Steps.{Timed};

use show::Show;
use show::refusal::Refusal;
use showfile::Written;
use verdict::Decision;

// No text is longer.
pub const TEXT_MOST: usize = 594;

fn put_four(out: &mut [u8], at: usize, a: u64, b: u64, c: u64, d: u64) -> usize
    requires { FitsAt out.old at (four_line a b c d) }
    ensures { Put out.old at (four_line a b c d) out.new result }
{
    let second = text::put_numbered(out, at, b"", a, b" ");
    let third = text::put_numbered(out, second, b"", b, b" ");
    let fourth = text::put_numbered(out, third, b"", c, b" ");
    text::put_numbered(out, fourth, b"", d, b"\n")
}

// `explain` has one like it, and says why.
fn put_refusal(out: &mut [u8; TEXT_MOST], why: Refusal) -> usize
    ensures { Put out.old 0 (refused_text why) out.new result }
{
    let told = why.told();
    text::put_paired(
        out,
        0,
        b"refused ",
        told.number as u64,
        b" ",
        told.place as u64,
        b"\n",
    )
}

// The line of session i: its number, its count, U of the count, and the smallest buffer that takes it.
fn put_session(
    out: &mut [u8],
    at: usize,
    i: usize,
    count: u32,
    time: u64,
    block: u32,
    cushion: u32,
) -> usize
    requires { FitsAt out.old at (four_line i count time ((count + 1) * block + cushion)) }
    ensures { Put out.old at (four_line i count time ((count + 1) * block + cushion)) out.new result }
{
    let blocks = (count as u64 + 1) * block as u64;
    let buffer = blocks + cushion as u64;
    put_four(out, at, i as u64, count as u64, time, buffer)
}

// A line for each session.
fn put_sessions(out: &mut [u8], at: usize, show: Show, counts: [u32; 16], times: [u64; 16]) -> usize
    requires timed { Timed show counts times }
    requires fits_at { FitsAt out.old at (session_lines (load_of show) (set_of counts) show.playing) }
    ensures { Put out.old at (session_lines (load_of show) (set_of counts) show.playing) out.new result }
{
    let mut next = at;
    for i in 0..show.playing {
        next = put_session(
            out,
            next,
            i,
            counts[i],
            times[i],
            show.drive.block,
            show.sessions[i].cushion,
        );
    }
    next
}

fn put_accepted(out: &mut [u8], show: Show, decision: Decision) -> usize
    requires timed { Timed show decision.counts decision.times }
    requires round_value { decision.round ≡ round_time (load_of show) (set_of decision.counts) }
    requires fits_at { FitsAt out.old 0 (accepted_text (load_of show) (set_of decision.counts)) }
    ensures { Put out.old 0 (accepted_text (load_of show) (set_of decision.counts)) out.new result }
{
    let next = text::put_paired(
        out,
        0,
        b"accepted ",
        show.playing as u64,
        b" ",
        decision.round,
        b"\n",
    );
    put_sessions(out, next, show, decision.counts, decision.times)
}

// The text for a file, into a buffer that takes every text.
fn put_text(file: &[u8], out: &mut [u8; TEXT_MOST]) -> usize
    ensures { Texted (TextIs file.now) out.old out.new result }
{
    let got = showfile::read(file);
    if let Err(why) = got.check {
        return put_refusal(out, why);
    }
    let decision = verdict::decide(got.show);
    if let Err(why) = decision.verdict {
        return put_refusal(out, why);
    }
    put_accepted(out, got.show, decision)
}

// Puts the text from the buffer's first byte on and answers its length; or 16, where the buffer would not take every text. `explain` is its
// twin in form alone.
pub fn report(file: &[u8], buffer: &mut [u8]) -> Written
    ensures report_is { ReportIs file.now buffer.old result buffer.new }
    ensures len_in_bounds { result.len ≤ length buffer.new }
{
    let Some(out) = buffer.first_chunk_mut::<TEXT_MOST>() else {
        return Written {
            check: Err(Refusal::BufferShort),
            len: 0,
        };
    };
    let len = put_text(file, out);
    Written { check: Ok(()), len }
}
