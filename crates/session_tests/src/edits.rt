// Edits: what each is answered, in which order its rules are checked, and what is then in force.
use crate::making::{in_force, number, opened, pair, shows};
use session::Session;
use std::test::Fail;
use timing::domain::Domain;
use timing::limits::MISSING_DELAY;
use timing::pair::Pair;
use timing::refusal::Refusal;
use timing::source::DelaySource;

// The one place is taken by the pair from 0 to 1. Each case breaks the rule of its number and all rules after it, but that
// only a pair that is there can be there twice.
#[test]
fn a_pair_that_breaks_several_rules(rt: HostRuntime) -> Result<(), Fail> {
    let mut session = opened(rt.alloc(), 3, 1)?;
    assert_eq!(rt; number(session.add(pair(0, 1, 2, 6))), None);
    let cases = [
        (pair(3, 1, MISSING_DELAY, 1_000_001), Some(2)),
        (pair(0, 3, 7, 6), Some(2)),
        (pair(4_294_967_295, 0, 2, 6), Some(2)),
        (pair(0, 1, MISSING_DELAY, 1_000_001), Some(14)),
        (pair(0, 1, 1_000_001, MISSING_DELAY), Some(14)),
        (pair(0, 1, 7, 6), Some(3)),
        (pair(0, 1, -1_000_001, 6), Some(3)),
        (pair(0, 1, 2, 6), Some(4)),
        (pair(0, 1, 3, 3), Some(4)),
        (pair(1, 0, 2, 6), Some(6)),
    ];
    for (given, refused) in cases {
        assert_eq!(rt; number(session.add(given)), refused);
        assert!(rt; shows(&session, &[pair(0, 1, 2, 6)]));
    }
    assert_eq!(rt; session.view().entry(1), Err(Refusal::NoSuchEntry));
    Ok(())
}

#[test]
fn retimed_and_dropped(rt: HostRuntime) -> Result<(), Fail> {
    let mut session = opened(rt.alloc(), 3, 4)?;
    assert_eq!(rt; number(session.add(pair(0, 1, 2, 6))), None);
    assert_eq!(rt; number(session.add(pair(1, 0, 2, 6))), None);
    assert_eq!(rt; number(session.add(pair(1, 1, 2, 6))), None);
    let cases = [
        (pair(2, 3, MISSING_DELAY, 1_000_001), Some(2)),
        (pair(2, 1, MISSING_DELAY, 1_000_001), Some(14)),
        (pair(2, 1, 7, 6), Some(3)),
        (pair(2, 1, 2, 6), Some(5)),
        (pair(1, 0, -1_000_000, 1_000_000), None),
    ];
    for (given, answer) in cases {
        assert_eq!(rt; number(session.retime(given)), answer);
    }
    let retimed = pair(1, 0, -1_000_000, 1_000_000);
    assert!(rt; shows(&session, &[retimed, pair(0, 1, 2, 6), pair(1, 1, 2, 6)]));
    assert_eq!(rt; number(session.drop_pair(0, 3)), Some(2));
    assert_eq!(rt; number(session.drop_pair(3, 0)), Some(2));
    assert_eq!(rt; number(session.drop_pair(0, 2)), Some(5));
    assert_eq!(rt; number(session.drop_pair(0, 1)), None);
    assert_eq!(rt; number(session.drop_pair(0, 1)), Some(5));
    assert!(rt; shows(&session, &[retimed, pair(1, 1, 2, 6)]));
    assert_eq!(rt; number(session.drop_pair(1, 1)), None);
    assert!(rt; shows(&session, &[retimed]));
    Ok(())
}

#[test]
fn pair_memory_that_is_full(rt: HostRuntime) -> Result<(), Fail> {
    let heap = rt.alloc();
    let mut session = opened(heap, 3, 2)?;
    assert_eq!(rt; session.add(pair(0, 1, 2, 6)), Ok(()));
    assert_eq!(rt; session.add(pair(1, 2, 1, 3)), Ok(()));
    let extra = pair(2, 2, 0, 0);
    assert_eq!(rt; session.add(extra), Err(Refusal::TooManyEntries));
    assert_eq!(rt; session.drop_pair(0, 1), Ok(()));
    assert_eq!(rt; session.add(extra), Ok(()));
    assert!(rt; shows(&session, &[extra, pair(1, 2, 1, 3)]));
    assert_eq!(rt; session.add(pair(0, 1, 2, 6)), Err(Refusal::TooManyEntries));
    assert!(rt; shows(&session, &[extra, pair(1, 2, 1, 3)]));
    let mut placeless = opened(heap, 3, 0)?;
    assert_eq!(rt; placeless.add(extra), Err(Refusal::TooManyEntries));
    assert_eq!(rt; placeless.retime(extra), Err(Refusal::NoSuchEntry));
    assert_eq!(rt; placeless.view().entry(0), Err(Refusal::NoSuchEntry));
    assert_eq!(rt; placeless.save(&mut []), Ok(0));
    Ok(())
}

#[test]
fn pins_and_the_ceiling(rt: HostRuntime) -> Result<(), Fail> {
    let heap = rt.alloc();
    let mut session = opened(heap, 3, 1)?;
    assert!(rt; session.pins() == [2, 2, 2].as_slice());
    assert_eq!(rt; session.ceiling(), 1_000_000);
    assert_eq!(rt; session.pin(1, Domain::Early), Ok(()));
    assert!(rt; session.pins() == [2, 0, 2].as_slice());
    assert_eq!(rt; session.pin(1, Domain::Late), Ok(()));
    assert_eq!(rt; session.pin(2, Domain::Early), Ok(()));
    assert!(rt; session.pins() == [2, 1, 0].as_slice());
    assert_eq!(rt; session.unpin(1), Ok(()));
    assert_eq!(rt; session.unpin(0), Ok(()));
    assert!(rt; session.pins() == [2, 2, 0].as_slice());
    for (ceiling, answer) in [
        (0u32, None),
        (1_000_000, None),
        (5, None),
        (1_000_001, Some(7)),
    ] {
        assert_eq!(rt; number(session.set_ceiling(ceiling)), answer);
        if answer.is_none() {
            assert_eq!(rt; session.ceiling(), ceiling);
        }
    }
    let before = in_force(heap, &session)?;
    assert_eq!(rt; before.ceiling, 5);
    assert_eq!(rt; session.pin(3, Domain::Late), Err(Refusal::NoSuchRegister));
    assert_eq!(rt; session.unpin(3), Err(Refusal::NoSuchRegister));
    assert_eq!(rt;
        session.set_ceiling(4_294_967_295),
        Err(Refusal::OffsetOutOfLimits)
    );
    assert!(rt; in_force(heap, &session)? == before);
    Ok(())
}

#[test]
fn openings_refused(rt: HostRuntime) -> Result<(), Fail> {
    let heap = rt.alloc();
    let spare = pair(9, 8, 7, 6);
    let cases = [
        (0u32, 5000usize, Refusal::RegisterCount),
        (4097, 5000, Refusal::RegisterCount),
        (4097, 0, Refusal::RegisterCount),
        (3, 2, Refusal::MemoryTooShort),
        (4096, 4095, Refusal::MemoryTooShort),
    ];
    for (registers, bytes, refusal) in cases {
        let pairs = vec![in heap; spare; 2]?;
        let pins = vec![in heap; 9u8; bytes]?;
        let Err(unopened) = Session::open(registers, pairs, pins) else {
            return Err(Fail::new("the opening is refused"));
        };
        assert_eq!(rt; unopened.refusal, refusal);
        assert!(rt; unopened.pair_memory.as_slice() == [spare, spare].as_slice());
        assert_eq!(rt; unopened.pin_memory.len(), bytes);
        assert!(rt; unopened.pin_memory.iter().all(|&byte| byte == 9));
    }
    assert_eq!(rt; opened(heap, 4096, 0)?.pins().len(), 4096);
    assert_eq!(rt; opened(heap, 1, 0)?.registers(), 1);
    Ok(())
}

// Pin memory longer than the registers, and pair memory: what no edit speaks of is handed back as it was.
#[test]
fn memory_that_is_not_used(rt: HostRuntime) -> Result<(), Fail> {
    let heap = rt.alloc();
    let spare = pair(9, 8, 7, 6);
    let pairs = vec![in heap; spare; 2]?;
    let pins = vec![in heap; 9u8; 5]?;
    let Ok(mut session) = Session::open(3, pairs, pins) else {
        return Err(Fail::new("the session opens"));
    };
    assert_eq!(rt; number(session.pin(2, Domain::Late)), None);
    assert_eq!(rt; number(session.pin(3, Domain::Late)), Some(2));
    assert_eq!(rt; number(session.add(pair(0, 1, 2, 6))), None);
    assert!(rt; session.pins() == [2, 2, 1].as_slice());
    let (pair_memory, pin_memory) = session.close();
    assert!(rt; pin_memory.as_slice() == [2, 2, 1, 9, 9].as_slice());
    assert!(rt; pair_memory.as_slice() == [pair(0, 1, 2, 6), spare].as_slice());
    Ok(())
}
