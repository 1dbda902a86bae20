// Does jobs over and over, for a measure of how quick the calls are. Reads lines from standard input:
//   KIND TURNS HEX     HEX: a show file in small letters, `-` for no bytes
// The answers, a line each, which bench/pace.c computes on its own:
//   KIND TURNS SUM     SUM: the turns' numbers together, modulo 2^64
//   error LINE, for a line that is not that, or whose show the kind can do nothing with
// Each turn asks something a little different from the one before, so that none can be left out.
#![tactic(auto)]

mod files;
mod runs;
mod shows;
mod sums;

use input::read_all;
use parse::{part, parts, same};
use parse_numbers::{decimal, unhex};
use run::Run;
use show::Show;
use showfile::Reading;

const TURNS_MOST: u64 = 1_000_000_000_000;

fn main(rt: HostRuntime) {
    let mut text = room();
    let n = read_all(&mut rt.stdin(), &mut text).len;
    answers(&rt, &text[..n]);
}

// Room for all of the input. Apart from `main`, whose proof then need not look at a million zeros.
fn room() -> [u8; 1_048_576] {
    [0; 1_048_576]
}

// The last line may end with a newline or not.
fn answers(rt: &impl Print, text: &[u8]) {
    for (i, line) in text.split_inclusive(|b| *b == b'\n').enumerate() {
        answer(rt, line.strip_suffix(b"\n").unwrap_or(line), i as u64 + 1);
    }
}

// Line i, counted from 1.
fn answer(rt: &impl Print, line: &[u8], i: u64) {
    if let Some((turns, sum)) = done(line) {
        say(rt, part(line, b' ', 0));
        spaced(rt, turns);
        spaced(rt, sum);
    } else {
        say(rt, b"error");
        spaced(rt, i);
    }
    say(rt, b"\n");
}

// ---- what a line asks

// How many turns the line asks for, and what they come to; nothing where it is no job.
fn done(line: &[u8]) -> Option<(u64, u64)> {
    if parts(line, b' ') != 3 {
        return None;
    }
    let mut room = [0u8; Reading::FILE_MOST];
    let turns = turns_of(part(line, b' ', 1))?;
    let n = bytes_of(part(line, b' ', 2), &mut room)?;
    let sum = file_job(part(line, b' ', 0), turns, room.get_mut(..n)?)?;
    Some((turns, sum))
}

fn turns_of(text: &[u8]) -> Option<u64> {
    decimal(text).filter(|turns| *turns <= TURNS_MOST)
}

// How many bytes the text spells, which then stand in `out` as far as it has room; nothing where it spells none.
fn bytes_of(text: &[u8], out: &mut [u8]) -> Option<usize> {
    if same(text, b"-") {
        return Some(0);
    }
    // `unhex` takes capital letters too.
    if text.iter().any(|b| matches!(b, b'A'..=b'F')) {
        return None;
    }
    unhex(text, out).map(|n| n as usize)
}

// ---- the jobs, by what they need

fn file_job(kind: &[u8], turns: u64, file: &mut [u8]) -> Option<u64> {
    match kind {
        b"read" => Some(files::reads(file, turns)),
        b"report" => Some(files::reports(file, turns)),
        _ => show_job(kind, turns, file),
    }
}

fn show_job(kind: &[u8], turns: u64, file: &[u8]) -> Option<u64> {
    let got = showfile::read(file);
    got.check.ok()?;
    let show = got.show;
    match kind {
        b"none" => Some(shows::nothings(turns)),
        b"write" => Some(files::writes(show, showfile::note(file), turns)),
        b"decide" => Some(shows::decides(show, turns)),
        b"reason" => Some(shows::reasons(show, turns)),
        b"open" => Some(shows::opens(show, turns)),
        b"play" => run_job(show, turns, runs::plays),
        b"pass" => run_job(show, turns, runs::passes),
        b"take" => run_job(show, turns, runs::takes),
        b"slack" => run_job(show, turns, runs::slacks),
        b"workahead" => run_job(show, turns, runs::workaheads),
        _ => None,
    }
}

// The run is opened and started first.
fn run_job<F: FnOnce(Run, u64) -> u64>(show: Show, turns: u64, job: F) -> Option<u64>
    requires { F.IsAlwaysCallable job }
{
    let opened = run::open(show);
    opened.check.ok()?;
    Some(job(runs::started(opened.run), turns))
}

// ---- what is printed

// A kind is bytes, as it was read: `println!` prints text alone.
fn say(rt: &impl Print, text: &[u8]) {
    let _ = rt.write_all(text);
}

fn spaced(rt: &impl Print, n: u64) {
    say(rt, b" ");
    let _ = rt.print(n);
}
