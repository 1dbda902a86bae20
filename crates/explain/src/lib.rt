// Why a show is refused, as a line and a sentence for the telephone, in a lent buffer. docs/RULES.md, section 11.
#![tactic(auto)]

mod line;

ghost use Rattle.std.specs.Prelude.{◌≤◌, length, Ok, Some};
ghost use Rattle.text.specs.Puts.{Put};
ghost use Rattle.text.specs.Told.{Texted};
ghost use Rattle.explain.specs.Text.{reason_text, refusal_text};
ghost use Rattle.explain.specs.Answers.{SaidIs, ExplainIs, said_most};

use crate::line::{put_beyond, put_buffer, put_load, put_sentence};
use reason::Reason;
use show::refusal::Refusal;
use showfile::Written;

// No text is longer.
pub const TEXT_MOST: usize = 256;

// The first line is as in `report`: one function for both would be a public one of the crate `text`.
fn put_refusal(out: &mut [u8; TEXT_MOST], why: Refusal) -> usize
    ensures { Put out.old 0 (refusal_text why) out.new result }
{
    let told = why.told();
    let next = text::put_paired(
        out,
        0,
        b"refused ",
        told.number as u64,
        b" ",
        told.place as u64,
        b"\n",
    );
    put_sentence(out, next, told)
}

// The text of a show that is within its limits, or of one that is not.
fn put_reason(
    out: &mut [u8; TEXT_MOST],
    reason: Result<Option<Reason>, Refusal>,
    tenths: u64,
) -> usize
    ensures { Put out.old 0 (reason_text reason tenths) out.new result }
{
    match reason {
        Ok(None) => put_load(
            out,
            0,
            b"none\nThe drive keeps up: it works at ",
            tenths,
            b" per cent, and every buffer is large enough.\n",
        ),
        Ok(Some(found)) => put_found(out, found, tenths),
        Err(why) => put_refusal(out, why),
    }
}

fn put_found(out: &mut [u8; TEXT_MOST], reason: Reason, tenths: u64) -> usize
    ensures { Put out.old 0 (reason_text (Ok (Some reason)) tenths) out.new result }
{
    match reason {
        Reason::Overload => put_load(
            out,
            0,
            b"overload\nThe drive would have to work at ",
            tenths,
            b" per cent; at an even hundred it never keeps up.\n",
        ),
        Reason::Beyond => put_beyond(out, tenths),
        Reason::Buffer { session, size } => put_buffer(out, session as u64, size, tenths),
    }
}

// The text for a file, into a buffer that takes every text.
fn put_text(file: &[u8], out: &mut [u8; TEXT_MOST]) -> usize
    ensures { Texted (SaidIs file.now) out.old out.new result }
{
    let got = showfile::read(file);
    if let Err(why) = got.check {
        return put_refusal(out, why);
    }
    match reason::load(got.show) {
        Ok(tenths) => put_reason(out, reason::why(got.show), tenths),
        Err(why) => put_refusal(out, why),
    }
}

// Puts the text from the buffer's first byte on and answers its length; or 16, where the buffer would not take every text. `report` is its
// twin in form alone: the two contracts name two relations.
pub fn explain(file: &[u8], buffer: &mut [u8]) -> Written
    ensures explain_is { ExplainIs file.now buffer.old result buffer.new }
    ensures len_in_bounds { result.len ≤ length buffer.new }
{
    let Some(out) = buffer.first_chunk_mut::<TEXT_MOST>() else {
        return Written {
            check: Err(Refusal::BufferShort),
            len: 0,
        };
    };
    let len = put_text(file, out);
    Written { check: Ok(()), len }
}
