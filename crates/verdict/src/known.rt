// What `cost` and `count` answer within the limits of a show: there neither refuses, and the 0 of a refusal is never answered.
ghost use Rattle.std.specs.Prelude.{◌≡◌, ◌*◌, ◌≤◌};
ghost use Rattle.show.specs.Limits.{Between, LayoutWithin};
ghost use Rattle.cost.specs.Bound.{worst_time};
ghost use Rattle.cost.specs.Costs.{read_cost};
ghost use Rattle.theory.specs.Rounds.{need};
ghost use Rattle.count.specs.Answers.{BlockWithin, RateWithin};
ghost use Rattle.verdict.specs.Steps.{time_most};

use cost::Cost;
use count::need;
use show::Layout;

// U(n) of reads on a layout.
pub(crate) fn takes(layout: Layout, cylinder: u32, n: u32) -> u64
    requires { LayoutWithin layout × Between 1 cylinder 65536 }
    ensures { (result ≡ worst_time cylinder (read_cost layout) n) × (result ≤ time_most) }
{
    Cost::of_read(layout).takes(cylinder, n).unwrap_or(0)
}

// The least count that is ahead of a rate over t.
pub(crate) fn asks(rate: u32, block: u32, t: u64) -> u64
    requires { BlockWithin block × RateWithin rate }
    ensures { result ≡ need rate (block * 1000000) t }
{
    need(rate, block, t).unwrap_or(0)
}
