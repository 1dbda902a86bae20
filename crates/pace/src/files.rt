// Jobs on a show file.
use crate::sums::{last, number_of, odd, over, total};
use show::Show;
use showfile::Reading;

// From the file's end back to the lowest byte of N, and the length of the trailer that holds it.
const BACK: usize = 16;

const TRAILER: usize = 20;

// ---- what is read, as the jobs on shows

pub(crate) fn reads(file: &mut [u8], turns: u64) -> u64 {
    over(turns, |k| read(turned(file, k)))
}

pub(crate) fn reports(file: &mut [u8], turns: u64) -> u64 {
    over(turns, |k| report(turned(file, k)))
}

// The file of turn k: the lowest bit of N is turned after each turn. A file that is too short for N stays.
fn turned(file: &mut [u8], k: u64) -> &[u8] {
    let n = file.len();
    if TRAILER <= n && 0 < k {
        file[n - BACK] ^= 1;
    }
    file
}

fn read(file: &[u8]) -> u64 {
    let got = showfile::read(file);
    let session = got.show.sessions[last(got.show.playing)];
    total([
        number_of(got.check),
        got.show.drive.cylinder as u64,
        got.note as u64,
        session.rate as u64,
    ])
}

fn report(file: &[u8]) -> u64 {
    let mut text = [0u8; report::TEXT_MOST];
    let n = report::report(file, &mut text).len;
    if n < 2 {
        return n as u64;
    }
    total([n as u64, text[n - 2] as u64])
}

// ---- what is written

pub(crate) fn writes(show: Show, note: &[u8], turns: u64) -> u64 {
    over(turns, |k| write(shifted(show, k), note))
}

// The show of turn k: the lowest bit of its cylinder is as it was or turned, by turns.
fn shifted(mut show: Show, k: u64) -> Show {
    show.drive.cylinder ^= odd(k) as u32;
    show
}

fn write(show: Show, note: &[u8]) -> u64 {
    let mut buffer = [0u8; Reading::FILE_MOST];
    let wrote = showfile_write::write(show, note, &mut buffer);
    let n = wrote.len;
    total([
        number_of(wrote.check),
        n as u64,
        buffer.get(..n).map_or(0, low_of) as u64,
    ])
}

// The lowest byte of N in a file that was written; 0 where none was, as bench/pace.c has it.
fn low_of(file: &[u8]) -> u8 {
    let n = file.len();
    if n < TRAILER {
        return 0;
    }
    file[n - BACK]
}
