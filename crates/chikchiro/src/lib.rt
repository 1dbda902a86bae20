// The calls for C, C++ and Rust, over numbers and slices. chikchiro_c exports them, and include/chikchiro.h says how to make them.
#![tactic(auto)]

ghost use Rattle.std.specs.Prelude.{Ok, Some, ◌≡◌, ◌∷◌, [], ◌≤◌, ◌<◌, length};
ghost use Rattle.show.specs.Refusals.{place_of};
ghost use Rattle.showfile.specs.Bytes.{over};
ghost use Rattle.chikchiro.specs.Answers.{ReportedIs, FileDecisionIs, DecidedIs, slices, FileReasonIs, ReasonedIs, reason_over, code_of};

use reason::Reason;
use show::refusal::Refusal;
use verdict::Decision;

// Some slice is too short for its answer: 16. Refusals and reasons are numbers here: the interface for C has no enums.
const SHORT: u64 = 16;

// The calculator's text for a file, from the buffer's first byte on, and its length; 0 for a buffer that would not take every text.
pub fn chikchiro_report(file: &[u8], buffer: &mut [u8]) -> usize
    ensures { ReportedIs file.now buffer.old result buffer.new }
{
    let told = report::report(file, buffer);
    told.len
}

// The verdict on a file: 0 with the counts, their times and L; else the number of the refusal and 256 times its place, and no slice changes.
pub fn chikchiro_decide(
    file: &[u8],
    counts: &mut [u32],
    times: &mut [u64],
    round: &mut [u64],
) -> u64
    ensures { DecidedIs file.now (slices counts.old times.old round.old) result (slices counts.new times.new round.new) }
{
    if counts.len() < 16 {
        return SHORT;
    }
    if times.len() < 16 {
        return SHORT;
    }
    if round.len() < 1 {
        return SHORT;
    }
    let decision = decided(file);
    if let Err(why) = decision.verdict {
        return code(why);
    }
    counts[..16].copy_from_slice(&decision.counts);
    times[..16].copy_from_slice(&decision.times);
    round[0] = decision.round;
    0
}

// Why a file is refused: 0 with the reason, the session and the size; else as of the verdict.
pub fn chikchiro_reason(file: &[u8], reason: &mut [u64]) -> u64
    ensures { ReasonedIs file.now reason.old result reason.new }
{
    if reason.len() < 3 {
        return SHORT;
    }
    match reasoned(file) {
        Ok(None) => put_reason(reason, 0, 0, 0),
        Ok(Some(found)) => put_found(reason, found),
        Err(why) => code(why),
    }
}

fn put_found(out: &mut [u64], reason: Reason) -> u64
    requires { 3 ≤ length out.old }
    ensures { (result ≡ 0) × (out.new ≡ reason_over (Ok (Some reason)) out.old) }
{
    match reason {
        Reason::Overload => put_reason(out, 1, 0, 0),
        Reason::Beyond => put_reason(out, 2, 0, 0),
        Reason::Buffer { session, size } => put_reason(out, 3, session as u64, size),
    }
}

// What is decided of the show in a file, or why there is none: zeros, as `verdict` has them, whose function for it is private.
fn decided(file: &[u8]) -> Decision
    ensures { FileDecisionIs file.now result }
{
    let got = showfile::read(file);
    if let Err(why) = got.check {
        return Decision {
            verdict: Err(why),
            round: 0,
            counts: [0; 16],
            times: [0; 16],
        };
    }
    verdict::decide(got.show)
}

// Why the show in a file is refused, or why there is none.
fn reasoned(file: &[u8]) -> Result<Option<Reason>, Refusal>
    ensures { FileReasonIs file.now result }
{
    let got = showfile::read(file);
    got.check?;
    reason::why(got.show)
}

// A refusal in one number.
fn code(why: Refusal) -> u64
    requires { place_of why < 16 }
    ensures { result ≡ code_of why }
{
    let told = why.told();
    told.number as u64 + 256 * told.place as u64
}

fn put_reason(out: &mut [u64], kind: u64, session: u64, size: u64) -> u64
    requires { 3 ≤ length out.old }
    ensures { (result ≡ 0) × (out.new ≡ over out.old 0 (kind ∷ session ∷ size ∷ [])) }
{
    out[0] = kind;
    out[1] = session;
    out[2] = size;
    0
}
