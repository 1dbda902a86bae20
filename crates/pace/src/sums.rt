// What a turn adds, and how turns differ.
ghost use Rattle.std.specs.Prelude.{◌<◌};

use show::refusal::Refusal;

// What the turns add, together. Turns are counted from 0.
pub(crate) fn over<F: FnMut(u64) -> u64>(turns: u64, mut turn: F) -> u64
    requires { F.IsAlwaysCallable turn }
{
    let mut sum = 0u64;
    for k in 0..turns {
        sum = sum.wrapping_add(turn(k));
    }
    sum
}

// Numbers together, modulo 2^64.
pub(crate) fn total<const N: usize>(numbers: [u64; N]) -> u64 {
    let mut sum = 0u64;
    for n in numbers {
        sum = sum.wrapping_add(n);
    }
    sum
}

// The refusal's number; 0 where it is none, as bench/pace.c has it.
pub(crate) fn number_of(check: Result<(), Refusal>) -> u64 {
    check.err().map_or(0, number)
}

pub(crate) fn number(why: Refusal) -> u64 {
    u64::from(why.told().number)
}

// The place of the last session. Where there is none, one that holds zeros.
pub(crate) fn last(playing: usize) -> usize
    ensures { result < 16 }
{
    playing.wrapping_sub(1) % 16
}

// 0 and 1 by turns.
pub(crate) fn odd(k: u64) -> u64
    ensures { result < 2 }
{
    k % 2
}
