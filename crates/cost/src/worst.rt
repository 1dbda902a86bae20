// U, the longest that an operation can take: docs/RULES.md, section 3. It is worked out here and nowhere else.
ghost use Rattle.std.specs.Prelude.{◌≡◌, ◌≤◌};
ghost use Rattle.cost.specs.Bound.{Limited, edges, worst_time};
ghost use Rattle.cost.specs.WorstTimes.{worst_of};

use crate::Cost;
use show::Show;
use show::refusal::Refusal;

// The cylinder edges that n blocks cross at most.
fn edges(cylinder: u32, n: u32) -> u64
    requires { 1 ≤ cylinder }
    ensures { result ≡ edges cylinder n }
{
    let per = cylinder as u64;
    // Not `div_ceil`: tried, it makes a decision on sixteen clips one tenth more instructions.
    (n as u64 + per - 1) / per
}

// U(n) of a cost within its limits, which fits 64 bits for every count.
pub(crate) fn time_of(cost: Cost, cylinder: u32, n: u32) -> u64
    requires { Limited cost × (1 ≤ cylinder) }
    ensures { result ≡ worst_time cylinder cost n }
{
    let blocks = n as u64 * cost.each;
    let crossed = edges(cylinder, n) * cost.cross;
    cost.fixed + blocks + crossed
}

// U(n) of session i: 2, 5, 6, 7, then 9.
pub fn worst_time(show: Show, i: usize, n: u32) -> Result<u64, Refusal>
    ensures { result ≡ worst_of show i n }
{
    show.check()?;
    if show.playing <= i {
        return Err(Refusal::NoSession);
    }
    let session = show.sessions[i];
    let at = session.layout as usize;
    let cost = Cost::of_read(show.layouts[at]);
    cost.takes(show.drive.cylinder, n)
}
