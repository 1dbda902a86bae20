// The calculator's text of a file, and why it is refused, as one line: each newline is written \n.
ghost use Rattle.std.specs.Prelude.{◌≤◌, length};

use crate::answers::{Faults, end};
use crate::files::{fill, filled};
use crate::given::Bytes;
use crate::output::say;
use parse::same;
use show::refusal::Refusal;
use showfile::Written;
use std::io;

// Longer than any text.
const LENT: usize = 640;

// Asked three times: with a long buffer, with one that is just long enough, and with one that is a byte too short, which is refused.
// `least`: the shortest buffer that is granted.
pub(crate) fn tell_text<F: Fn(&[u8], &mut [u8]) -> Written>(
    rt: &impl Print,
    ask: F,
    least: usize,
    hex: &[u8],
) -> io::Result<()>
    requires callable { F.IsAlwaysCallable ask }
    requires room { (1 ≤ least) × (least ≤ 640) }
{
    let file = Bytes::of(hex);
    let long = asked_in(&ask, file.as_slice(), LENT);
    let just = asked_in(&ask, file.as_slice(), least);
    let short = asked_in(&ask, file.as_slice(), least - 1);
    let faults = Faults {
        refused: long.check.is_err(),
        changed: !long.kept || !short.kept,
        differs: long.len != just.len || !same(&long.buffer, &just.buffer),
        granted: short.len != 0 || !matches!(short.check, Err(Refusal::BufferShort)),
        ..Faults::default()
    };
    tell_lines(rt, &long.buffer[..long.len])?;
    end(rt, faults)
}

// What was answered with so much of a buffer, the buffer, and whether every byte behind the text is as it was. No `Result`: of a refusal too
// all of it is looked at.
#[derive(Clone, Copy)]
struct Text {
    check: Result<(), Refusal>,
    len: usize,
    buffer: [u8; LENT],
    kept: bool,
}

// No text is longer than its buffer, as the contracts of both calls say; of a call that is lent nothing is known.
fn asked_in<F: Fn(&[u8], &mut [u8]) -> Written>(ask: &F, file: &[u8], room: usize) -> Text
    requires callable { F.IsAlwaysCallable ask.now }
    requires room { room ≤ 640 }
    ensures { result.len ≤ length result.buffer }
{
    let mut buffer = [0u8; LENT];
    fill(&mut buffer);
    let wrote = ask(file, &mut buffer[..room]);
    let len = wrote.len.min(LENT);
    Text {
        check: wrote.check,
        len,
        kept: filled(&buffer, len),
        buffer,
    }
}

fn tell_lines(rt: &impl Print, text: &[u8]) -> io::Result<()> {
    for (k, line) in text.split(|&b| b == b'\n').enumerate() {
        let before = if k == 0 { " -> " } else { "\\n" };
        say(rt, before.as_bytes())?;
        say(rt, line)?;
    }
    Ok(())
}
