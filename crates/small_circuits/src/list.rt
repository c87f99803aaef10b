ghost use Rattle.small_circuits.specs.Yields.{Yields};
ghost use Rattle.std.specs.List.{AllByRecursion};

use crate::circuit::{LeastPlan, LeastTimes, SmallCircuit};
use timing::domain::FREE;
use timing::limits::MAX_OFFSET;
use timing::pair::Pair;

// 0 to 1 (2, 6), 1 to 0 (1, 2)
const THERE_AND_BACK: [Pair; 2] = [
    Pair {
        launch: 0,
        capture: 1,
        min: 2,
        max: 6,
    },
    Pair {
        launch: 1,
        capture: 0,
        min: 1,
        max: 2,
    },
];
// 0 to 1 (2, 6), 1 to 2 (2, 6)
const TWO_IN_A_ROW: [Pair; 2] = [
    Pair {
        launch: 0,
        capture: 1,
        min: 2,
        max: 6,
    },
    Pair {
        launch: 1,
        capture: 2,
        min: 2,
        max: 6,
    },
];
// 0 to 1 (-2, 3)
const NEGATIVE_HOLD: [Pair; 1] = [Pair {
    launch: 0,
    capture: 1,
    min: -2,
    max: 3,
}];
// 0 to 1 (-3, 4), 1 to 2 (-3, 4)
const NEGATIVE_HOLD_TWICE: [Pair; 2] = [
    Pair {
        launch: 0,
        capture: 1,
        min: -3,
        max: 4,
    },
    Pair {
        launch: 1,
        capture: 2,
        min: -3,
        max: 4,
    },
];
// 0 to 0 (-1, 5)
const HOLD_BROKEN_BY_ITSELF: [Pair; 1] = [Pair {
    launch: 0,
    capture: 0,
    min: -1,
    max: 5,
}];
// 0 to 0 (0, 5)
const FROM_ITSELF: [Pair; 1] = [Pair {
    launch: 0,
    capture: 0,
    min: 0,
    max: 5,
}];

// Every one of them, with what the definitions yield for it over all choices of clocks.
pub fn all() -> [SmallCircuit; 10]
    ensures { AllByRecursion Yields result }
{
    [
        there_and_back(),
        low_ceiling(),
        pinned_early(),
        two_in_a_row(),
        negative_hold(),
        negative_hold_low_ceiling(),
        negative_hold_twice(),
        self_hold_broken(),
        self_pair(),
        no_pairs(),
    ]
}

// With register 1 late by 2 the long path borrows from the short one.
fn there_and_back() -> SmallCircuit
    ensures { Yields result }
{
    SmallCircuit {
        registers: 2,
        pairs: &THERE_AND_BACK,
        pins: &[FREE, FREE],
        ceiling: MAX_OFFSET,
        plan: Some(LeastPlan {
            period: 4,
            offset: 2,
            domains: &[0, 1],
        }),
        free: Some(LeastTimes {
            period: 4,
            times: &[-2, 0],
        }),
    }
}

// The same under a ceiling of 1: only 1 can be borrowed.
fn low_ceiling() -> SmallCircuit
    ensures { Yields result }
{
    SmallCircuit {
        registers: 2,
        pairs: &THERE_AND_BACK,
        pins: &[FREE, FREE],
        ceiling: 1,
        plan: Some(LeastPlan {
            period: 5,
            offset: 1,
            domains: &[0, 1],
        }),
        free: Some(LeastTimes {
            period: 4,
            times: &[-2, 0],
        }),
    }
}

// The same with register 1 pinned early: nothing can be borrowed.
fn pinned_early() -> SmallCircuit
    ensures { Yields result }
{
    SmallCircuit {
        registers: 2,
        pairs: &THERE_AND_BACK,
        pins: &[FREE, 0],
        ceiling: MAX_OFFSET,
        plan: Some(LeastPlan {
            period: 6,
            offset: 0,
            domains: &[0, 0],
        }),
        free: Some(LeastTimes {
            period: 4,
            times: &[-2, 0],
        }),
    }
}

// Two domains cannot help both paths, free clock times can.
fn two_in_a_row() -> SmallCircuit
    ensures { Yields result }
{
    SmallCircuit {
        registers: 3,
        pairs: &TWO_IN_A_ROW,
        pins: &[FREE, FREE, FREE],
        ceiling: MAX_OFFSET,
        plan: Some(LeastPlan {
            period: 6,
            offset: 0,
            domains: &[0, 0, 0],
        }),
        free: Some(LeastTimes {
            period: 4,
            times: &[-4, -2, 0],
        }),
    }
}

// The hold limit asks for register 0 late by 2, and the setup limit pays for it.
fn negative_hold() -> SmallCircuit
    ensures { Yields result }
{
    SmallCircuit {
        registers: 2,
        pairs: &NEGATIVE_HOLD,
        pins: &[FREE, FREE],
        ceiling: MAX_OFFSET,
        plan: Some(LeastPlan {
            period: 5,
            offset: 2,
            domains: &[1, 0],
        }),
        free: Some(LeastTimes {
            period: 5,
            times: &[0, -2],
        }),
    }
}

// The same under a ceiling of 1: no plan.
fn negative_hold_low_ceiling() -> SmallCircuit
    ensures { Yields result }
{
    SmallCircuit {
        registers: 2,
        pairs: &NEGATIVE_HOLD,
        pins: &[FREE, FREE],
        ceiling: 1,
        plan: None,
        free: Some(LeastTimes {
            period: 5,
            times: &[0, -2],
        }),
    }
}

// Register 1 would have to be early and late. Free clock times can.
fn negative_hold_twice() -> SmallCircuit
    ensures { Yields result }
{
    SmallCircuit {
        registers: 3,
        pairs: &NEGATIVE_HOLD_TWICE,
        pins: &[FREE, FREE, FREE],
        ceiling: MAX_OFFSET,
        plan: None,
        free: Some(LeastTimes {
            period: 7,
            times: &[0, -3, -6],
        }),
    }
}

// No clock time lets a register hold against itself.
fn self_hold_broken() -> SmallCircuit
    ensures { Yields result }
{
    SmallCircuit {
        registers: 1,
        pairs: &HOLD_BROKEN_BY_ITSELF,
        pins: &[FREE],
        ceiling: MAX_OFFSET,
        plan: None,
        free: None,
    }
}

// The longest path of a register to itself is its least period.
fn self_pair() -> SmallCircuit
    ensures { Yields result }
{
    SmallCircuit {
        registers: 1,
        pairs: &FROM_ITSELF,
        pins: &[FREE],
        ceiling: MAX_OFFSET,
        plan: Some(LeastPlan {
            period: 5,
            offset: 0,
            domains: &[0],
        }),
        free: Some(LeastTimes {
            period: 5,
            times: &[0],
        }),
    }
}

// One register and no pairs: nothing asks for more than the least period of all.
fn no_pairs() -> SmallCircuit
    ensures { Yields result }
{
    SmallCircuit {
        registers: 1,
        pairs: &[],
        pins: &[FREE],
        ceiling: MAX_OFFSET,
        plan: Some(LeastPlan {
            period: 1,
            offset: 0,
            domains: &[0],
        }),
        free: Some(LeastTimes {
            period: 1,
            times: &[0],
        }),
    }
}
