ghost use Rattle.timing.specs.Slacks.{limit_part, limit_slack};
ghost use Rattle.std.specs.Prelude.{◌≡◌};

use crate::pair::Pair;
use crate::refusal::Part;

// The two limits that a pair puts on clock times.
#[derive(Clone, Copy, PartialEq, Eq, Debug)]
pub enum Limit {
    Setup,
    Hold,
}

impl Limit {
    // What this limit of a pair has to spare.
    pub fn slack(self, pair: Pair, period: u32, launch: i64, capture: i64) -> i128
        ensures { result ≡ limit_slack self pair period launch capture }
    {
        match self {
            Limit::Setup => pair.setup_slack(period, launch, capture),
            Limit::Hold => pair.hold_slack(launch, capture),
        }
    }

    // The part of a draft that is broken with this limit.
    pub fn part(self) -> Part
        ensures { result ≡ limit_part self }
    {
        match self {
            Limit::Setup => Part::Setup,
            Limit::Hold => Part::Hold,
        }
    }
}
