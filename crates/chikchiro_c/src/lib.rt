// The calls of chikchiro under their names in C: include/chikchiro.h declares them.
#![tactic(auto)]

ghost use Rattle.chikchiro.specs.Answers.{ReportedIs, DecidedIs, slices, ReasonedIs};

// The calculator's text for a file, and its length.
#[unsafe(no_mangle)]
pub extern "C" fn chikchiro_report(file: &[u8], buffer: &mut [u8]) -> usize
    ensures { ReportedIs file.now buffer.old result buffer.new }
{
    chikchiro::chikchiro_report(file, buffer)
}

// The verdict on a file.
#[unsafe(no_mangle)]
pub extern "C" fn chikchiro_decide(
    file: &[u8],
    counts: &mut [u32],
    times: &mut [u64],
    round: &mut [u64],
) -> u64
    ensures { DecidedIs file.now (slices counts.old times.old round.old) result (slices counts.new times.new round.new) }
{
    chikchiro::chikchiro_decide(file, counts, times, round)
}

// Why a file is refused.
#[unsafe(no_mangle)]
pub extern "C" fn chikchiro_reason(file: &[u8], reason: &mut [u64]) -> u64
    ensures { ReasonedIs file.now reason.old result reason.new }
{
    chikchiro::chikchiro_reason(file, reason)
}
