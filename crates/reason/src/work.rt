// The load of a show: the sum over sessions of R x (N x block time + one-track seek), against N x A x 1,000,000. The sum can pass 64 bits
// and is not formed.
ghost use Rattle.std.specs.Prelude.{◌≡◌};
ghost use Rattle.show.specs.Limits.{ShowWithin};
ghost use Rattle.theory.specs.Shows.{load_of};
ghost use Rattle.reason.specs.Steps.{sums_of, SumsSmall, work_of, WorkSmall};

use cost::Cost;
use show::Show;

// The sum of R x block time, and that of R x one-track seek.
#[derive(Clone, Copy)]
struct Sums {
    pub blocks: u64,
    pub edges: u64,
}

// The load is full x whole + part. In form like `Span` of count, which is private there and means a time.
#[derive(Clone, Copy)]
pub(crate) struct Work {
    pub full: u64,
    pub whole: u64,
    pub part: u64,
}

fn add_up(show: &Show) -> Sums
    requires { ShowWithin show.now }
    ensures { (result ≡ sums_of show.now) × SumsSmall result }
{
    let mut blocks: u64 = 0;
    let mut edges: u64 = 0;
    for i in 0..show.playing {
        let session = show.sessions[i];
        let at = session.layout as usize;
        let cost = Cost::of_read(show.layouts[at]);
        let rate = session.rate as u64;
        blocks += rate * cost.each;
        edges += rate * cost.cross;
    }
    Sums { blocks, edges }
}

pub(crate) fn weigh(show: &Show) -> Work
    requires { ShowWithin show.now }
    ensures { (result ≡ work_of (load_of show.now)) × WorkSmall result }
{
    let sums = add_up(show);
    let cylinder = show.drive.cylinder as u64;
    let unit = show.drive.block as u64 * 1_000_000;
    let full = cylinder * unit;
    let left = cylinder * (sums.blocks % unit) + sums.edges;
    Work {
        full,
        whole: sums.blocks / unit + left / full,
        part: left % full,
    }
}
