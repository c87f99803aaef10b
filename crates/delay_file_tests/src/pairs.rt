// Pairs: what is lawful, and what the limits have to spare.
use timing::domain::Domain;
use timing::limits::MISSING_DELAY;
use timing::pair::Pair;
use timing::refusal::{Part, Refusal};

// The number that a pair of so many registers is refused with, if it is.
fn refusal_number(pair: Pair, registers: u32) -> Option<u32> {
    pair.validate(registers)
        .err()
        .map(|refusal| refusal.number())
}

fn pair(launch: u32, capture: u32, min: i32, max: i32) -> Pair {
    Pair {
        launch,
        capture,
        min,
        max,
    }
}

#[test]
fn delays_at_their_limits(rt: HostRuntime) {
    let cases = [
        (1_000_000, 1_000_000, None),
        (0, 1_000_001, Some(3)),
        (-1_000_000, -1_000_000, None),
        (-1_000_001, 0, Some(3)),
        (5, 5, None),
        (6, 5, Some(3)),
        (-1_000_000, 1_000_000, None),
        (MISSING_DELAY, 5, Some(14)),
        (5, MISSING_DELAY, Some(14)),
        (MISSING_DELAY, MISSING_DELAY, Some(14)),
        (MISSING_DELAY, 2_000_000, Some(14)),
        (2_000_000, MISSING_DELAY, Some(14)),
        (-2_147_483_647, 0, Some(3)),
        (0, 2_147_483_647, Some(3)),
    ];
    for (min, max, number) in cases {
        assert_eq!(rt; refusal_number(pair(0, 1, min, max), 2), number);
    }
}

#[test]
fn a_register_is_checked_before_the_delays(rt: HostRuntime) {
    let cases = [
        (pair(2, 0, MISSING_DELAY, 9), 2, Some(2)),
        (pair(0, 2, 9, 1), 2, Some(2)),
        (pair(1, 1, 0, 0), 2, None),
        (pair(4_294_967_295, 0, 0, 0), 4096, Some(2)),
        (pair(0, 0, 0, 0), 0, Some(2)),
    ];
    for (pair, registers, number) in cases {
        assert_eq!(rt; refusal_number(pair, registers), number);
    }
}

#[test]
fn slack_of_a_pair(rt: HostRuntime) {
    let pair = pair(0, 1, 2, 6);
    assert_eq!(rt; pair.setup_slack(4, 0, 2), 0);
    assert_eq!(rt; pair.setup_slack(4, 0, 1), -1);
    assert_eq!(rt; pair.setup_slack(10, 3, 0), 1);
    assert_eq!(rt; pair.hold_slack(0, 2), 0);
    assert_eq!(rt; pair.hold_slack(0, 3), -1);
    assert_eq!(rt; pair.hold_slack(5, 0), 7);
    let apart = pair.setup_slack(1, 9_223_372_036_854_775_807, -9_223_372_036_854_775_808);
    assert_eq!(rt; apart, -18_446_744_073_709_551_620);
}

#[test]
fn clock_times_of_the_domains(rt: HostRuntime) {
    assert_eq!(rt; Domain::Early.clock_time(7), 0);
    assert_eq!(rt; Domain::Late.clock_time(7), 7);
}

#[test]
fn numbers_of_refusals(rt: HostRuntime) {
    let rows = [
        (Refusal::RegisterCount, 1),
        (Refusal::NoSuchRegister, 2),
        (Refusal::DelayOutOfLimits, 3),
        (Refusal::PairPresent, 4),
        (Refusal::NoSuchEntry, 5),
        (Refusal::TooManyEntries, 6),
        (Refusal::OffsetOutOfLimits, 7),
        (Refusal::PeriodOutOfLimits, 8),
        (Refusal::MemoryTooShort, 9),
        (Refusal::NoLegalPlan, 10),
        (Refusal::NoFreeTimes, 11),
        (Refusal::NotWholeRecords, 12),
        (Refusal::MalformedRecord, 13),
        (Refusal::DelayMissing, 14),
        (Refusal::FaultyEntry { place: 3 }, 15),
        (
            Refusal::DraftNotLegal {
                part: Part::Hold,
                place: 3,
                excess: 1,
            },
            16,
        ),
        (Refusal::WitnessUnsound { link: 3 }, 17),
    ];
    for (refusal, number) in rows {
        assert_eq!(rt; refusal.number(), number);
    }
    assert_eq!(rt; Part::Ceiling.number(), 1);
    assert_eq!(rt; Part::Hold.number(), 4);
}
