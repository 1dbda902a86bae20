// What an operation costs, and U, its worst time: docs/RULES.md, section 3. The laws of U stand in specs/Bound.
#![tactic(auto)]

pub mod worst;

ghost use Rattle.std.specs.Prelude.{◌≡◌};
ghost use Rattle.show.specs.Limits.{Tells};
ghost use Rattle.cost.specs.Bound.{Limited};
ghost use Rattle.cost.specs.Costs.{read_cost};
ghost use Rattle.cost.specs.WorstTimes.{takes_of};

use crate::worst::time_of;
use show::refusal::Refusal;
use show::{Drive, Layout};

// What an operation costs, in µs: once, for each block, for each cylinder edge.
#[derive(Clone, Copy)]
pub struct Cost {
    pub fixed: u64,
    pub each: u64,
    pub cross: u64,
}

impl Cost {
    pub const FIXED_MOST: u64 = 5_000_000;

    pub const EACH_MOST: u64 = 3_000_000;

    pub const CROSS_MOST: u64 = 1_000_000;

    // A read seeks far and waits for two rotations once.
    pub fn of_read(layout: Layout) -> Cost
        ensures { result ≡ read_cost layout }
    {
        Cost {
            fixed: layout.longest as u64 + 2 * (layout.rotation as u64),
            each: layout.time as u64,
            cross: layout.track as u64,
        }
    }

    fn limited(self) -> bool
        ensures { Tells result (Limited self) }
    {
        self.fixed <= Cost::FIXED_MOST
            && self.each <= Cost::EACH_MOST
            && self.cross <= Cost::CROSS_MOST
    }

    // U(n) on cylinders of so many blocks: 5 where these are outside their limit, then 6 where the cost is past its limits.
    pub fn takes(self, cylinder: u32, n: u32) -> Result<u64, Refusal>
        ensures { result ≡ takes_of self cylinder n }
    {
        if !(Drive::CYLINDER_LEAST..=Drive::CYLINDER_MOST).contains(&cylinder) {
            return Err(Refusal::DriveLimits);
        }
        if !self.limited() {
            return Err(Refusal::LayoutLimits(0));
        }
        Ok(time_of(self, cylinder, n))
    }
}
