// Files loaded: whole, or not at all.
use crate::making::{file, in_force, number, opened, pair, shows, stop};
use session::Session;
use std::alloc::Global;
use std::collections::BTreeSet;
use std::process::Abort;
use std::test::Fail;
use timing::domain::Domain;
use timing::limits::MISSING_DELAY;
use timing::pair::Pair;
use timing::source::DelaySource;

// A session of three registers and four places that keeps the pair from 2 to 2, has a pin and a ceiling of 5.
fn lived_in(rt: &impl Abort, heap: Global) -> Result<Session, Fail> {
    let mut session = opened(heap, 3, 4)?;
    assert_eq!(rt; number(session.add(pair(2, 2, 1, 1))), None);
    assert_eq!(rt; number(session.pin(1, Domain::Late)), None);
    assert_eq!(rt; number(session.set_ceiling(5)), None);
    Ok(session)
}

// What a load stops with; nothing in the session may then have changed.
fn stopped(
    rt: &impl Abort,
    heap: Global,
    session: &mut Session,
    bytes: &[u8],
) -> Result<Option<(u32, Option<usize>)>, Fail> {
    let before = in_force(heap, session)?;
    let answer = stop(session.load(bytes));
    assert!(rt; in_force(heap, session)? == before);
    Ok(answer)
}

// The same for a file of three registers and these pairs.
fn stopped_by(
    rt: &impl Abort,
    heap: Global,
    session: &mut Session,
    pairs: &[Pair],
) -> Result<Option<(u32, Option<usize>)>, Fail> {
    let bytes = file(heap, 3, pairs)?;
    stopped(rt, heap, session, bytes.as_slice())
}

#[test]
fn good_files(rt: HostRuntime) -> Result<(), Fail> {
    let heap = rt.alloc();
    let mut session = lived_in(&rt, heap)?;
    let none = file(heap, 3, &[])?;
    assert_eq!(rt; stop(session.load(none.as_slice())), None);
    assert!(rt; shows(&session, &[pair(2, 2, 1, 1)]));
    let (first, second) = (pair(0, 1, 2, 6), pair(1, 0, -1, 2));
    let bytes = file(heap, 3, &[first, second])?;
    assert_eq!(rt; stop(session.load(bytes.as_slice())), None);
    assert!(rt; shows(&session, &[first, second, pair(2, 2, 1, 1)]));
    assert!(rt; session.pins() == [2, 1, 2].as_slice());
    assert_eq!(rt; session.ceiling(), 5);
    assert_eq!(rt;
        stopped(&rt, heap, &mut session, bytes.as_slice())?,
        Some((4, Some(3)))
    );
    assert_eq!(rt;
        stopped_by(
            &rt,
            heap,
            &mut session,
            &[pair(0, 0, 0, 0), pair(0, 2, 0, 0)]
        )?,
        Some((6, Some(4)))
    );
    Ok(())
}

#[test]
fn pairs_that_stop_a_load(rt: HostRuntime) -> Result<(), Fail> {
    let heap = rt.alloc();
    let mut session = lived_in(&rt, heap)?;
    let good = pair(0, 1, 2, 6);
    let again = [good, pair(1, 0, 2, 6), good];
    assert_eq!(rt;
        stopped_by(&rt, heap, &mut session, &again)?,
        Some((4, Some(5)))
    );
    let other_delays = [good, pair(0, 1, 3, 3), pair(0, 0, 7, 6)];
    assert_eq!(rt;
        stopped_by(&rt, heap, &mut session, &other_delays)?,
        Some((4, Some(4)))
    );
    let kept = [good, pair(2, 2, 0, 0), good];
    assert_eq!(rt;
        stopped_by(&rt, heap, &mut session, &kept)?,
        Some((4, Some(4)))
    );
    let lacking = [good, pair(1, 0, MISSING_DELAY, 6), good];
    assert_eq!(rt;
        stopped_by(&rt, heap, &mut session, &lacking)?,
        Some((14, Some(4)))
    );
    let nowhere = [good, pair(1, 3, 2, 6), good];
    assert_eq!(rt;
        stopped_by(&rt, heap, &mut session, &nowhere)?,
        Some((2, Some(4)))
    );
    let turned = [good, pair(2, 2, 7, 6), good];
    assert_eq!(rt;
        stopped_by(&rt, heap, &mut session, &turned)?,
        Some((3, Some(4)))
    );
    let many = [good, pair(0, 2, 0, 0), pair(1, 0, 0, 0), pair(1, 2, 0, 0)];
    assert_eq!(rt;
        stopped_by(&rt, heap, &mut session, &many)?,
        Some((6, Some(6)))
    );
    Ok(())
}

#[test]
fn files_that_do_not_fit_or_open(rt: HostRuntime) -> Result<(), Fail> {
    let heap = rt.alloc();
    let mut session = lived_in(&rt, heap)?;
    for registers in [2usize, 4] {
        let bytes = file(heap, registers, &[pair(0, 1, MISSING_DELAY, 6)])?;
        assert_eq!(rt;
            stopped(&rt, heap, &mut session, bytes.as_slice())?,
            Some((1, None))
        );
    }
    assert_eq!(rt; stopped(&rt, heap, &mut session, &[])?, Some((1, None)));
    let cases = [
        (1usize, 13u32, Some(0usize)),
        (39, 13, Some(1)),
        (96, 13, Some(3)),
        (159, 13, Some(4)),
    ];
    for (at, refused, record) in cases {
        let mut bytes = file(heap, 3, &[pair(0, 1, 2, 6), pair(1, 0, 2, 6)])?;
        let Some(byte) = bytes.get_mut(at) else {
            return Err(Fail::new("the byte is there"));
        };
        *byte ^= 128;
        assert_eq!(rt;
            stopped(&rt, heap, &mut session, bytes.as_slice())?,
            Some((refused, record))
        );
        bytes.truncate(159);
        assert_eq!(rt;
            stopped(&rt, heap, &mut session, bytes.as_slice())?,
            Some((12, None))
        );
    }
    Ok(())
}

// The pairs between each two of so many registers, in rising order.
fn all_pairs(heap: Global, registers: u32) -> Result<Vec<Pair>, Fail> {
    let mut pairs = Vec::new(heap);
    // Two loops say plainer than a chain of chains that these are all of them, in this order.
    for launch in 0..registers {
        for capture in 0..registers {
            pairs.push(pair(launch, capture, 2, 6))?;
        }
    }
    Ok(pairs)
}

// How many of the pairs between each two of so many registers a session shows.
fn distinct(heap: Global, session: &Session, registers: u32) -> Result<usize, Fail> {
    let mut seen = BTreeSet::new(heap);
    let view = session.view();
    // A source is asked by place, and only the pairs that are expected count, so a chain would be no plainer.
    for place in 0..view.entry_count() {
        match view.entry(place) {
            Ok(
                Pair {
                    launch,
                    capture,
                    min: 2,
                    max: 6,
                },
            ) if launch < registers && capture < registers => {
                seen.insert((launch, capture))?;
            }
            _ => {}
        }
    }
    Ok(seen.len())
}

// 128 of 129 registers, each with each: as many pairs as a session may keep, though its memory has a place more.
#[test]
fn the_most_pairs(rt: HostRuntime) -> Result<(), Fail> {
    let heap = rt.alloc();
    let mut session = opened(heap, 129, 16_385)?;
    assert_eq!(rt; number(session.add(pair(128, 128, 1, 1))), None);
    assert_eq!(rt; number(session.pin(128, Domain::Early)), None);
    assert_eq!(rt; number(session.set_ceiling(5)), None);
    let mut pairs = all_pairs(heap, 128)?;
    assert_eq!(rt; pairs.len(), 16_384);
    let good = file(heap, 129, pairs.as_slice())?;
    assert_eq!(rt;
        stopped(&rt, heap, &mut session, good.as_slice())?,
        Some((6, Some(16_512)))
    );
    if let Some(last) = pairs.get_mut(16_383) {
        last.max = MISSING_DELAY;
    }
    let faulty = file(heap, 129, pairs.as_slice())?;
    assert_eq!(rt;
        stopped(&rt, heap, &mut session, faulty.as_slice())?,
        Some((14, Some(16_512)))
    );
    assert_eq!(rt; number(session.drop_pair(128, 128)), None);
    assert_eq!(rt;
        stopped(&rt, heap, &mut session, faulty.as_slice())?,
        Some((14, Some(16_512)))
    );
    assert_eq!(rt; session.pair_count(), 0);
    assert_eq!(rt; stop(session.load(good.as_slice())), None);
    assert_eq!(rt; session.pair_count(), 16_384);
    assert_eq!(rt; distinct(heap, &session, 128)?, 16_384);
    assert_eq!(rt; number(session.add(pair(128, 0, 2, 6))), Some(6));
    let one = file(heap, 129, &[pair(128, 0, 2, 6)])?;
    assert_eq!(rt;
        stopped(&rt, heap, &mut session, one.as_slice())?,
        Some((6, Some(129)))
    );
    Ok(())
}

#[test]
fn a_file_of_one_pair_too_many(rt: HostRuntime) -> Result<(), Fail> {
    let heap = rt.alloc();
    let mut session = opened(heap, 129, 16_385)?;
    let mut pairs = all_pairs(heap, 128)?;
    pairs.push(pair(128, 0, 2, 6))?;
    let bytes = file(heap, 129, pairs.as_slice())?;
    assert_eq!(rt;
        stopped(&rt, heap, &mut session, bytes.as_slice())?,
        Some((6, Some(16_513)))
    );
    let mut small = opened(heap, 129, 100)?;
    assert_eq!(rt;
        stopped(&rt, heap, &mut small, bytes.as_slice())?,
        Some((6, Some(229)))
    );
    Ok(())
}

#[test]
fn pairs_in_falling_order(rt: HostRuntime) -> Result<(), Fail> {
    let heap = rt.alloc();
    let mut session = opened(heap, 64, 4096)?;
    let mut pairs = all_pairs(heap, 64)?;
    pairs.as_mut_slice().reverse();
    let falling = file(heap, 64, pairs.as_slice())?;
    if let Some(last) = pairs.get_mut(4095) {
        *last = pair(63, 63, 2, 6);
    }
    let twice = file(heap, 64, pairs.as_slice())?;
    assert_eq!(rt;
        stopped(&rt, heap, &mut session, twice.as_slice())?,
        Some((4, Some(4159)))
    );
    assert_eq!(rt; stop(session.load(falling.as_slice())), None);
    assert_eq!(rt; session.pair_count(), 4096);
    assert_eq!(rt; distinct(heap, &session, 64)?, 4096);
    Ok(())
}
