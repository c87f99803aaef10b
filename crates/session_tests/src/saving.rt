// Sessions saved: each pair once, as a record, and loaded back as the same pairs.
use crate::making::{file, number, opened, pair, shows, stop, times_shown};
use delay_file::encoding::encode_pair;
use session::Session;
use std::alloc::Global;
use std::process::Abort;
use std::test::Fail;
use timing::domain::Domain;
use timing::refusal::Refusal;
use timing::source::DelaySource;

// A session of five registers with three pairs, after five adds, a retime and two drops.
fn edited(rt: &impl Abort, heap: Global) -> Result<Session, Fail> {
    let mut session = opened(heap, 5, 6)?;
    for (launch, capture) in [(4u32, 0u32), (0, 1), (3, 2), (2, 3), (1, 1)] {
        assert_eq!(rt; number(session.add(pair(launch, capture, -3, 9))), None);
    }
    assert_eq!(rt; number(session.drop_pair(4, 0)), None);
    assert_eq!(rt; number(session.retime(pair(1, 1, 5, 5))), None);
    assert_eq!(rt; number(session.drop_pair(2, 3)), None);
    Ok(session)
}

#[test]
fn memory_to_save_into(rt: HostRuntime) -> Result<(), Fail> {
    let session = edited(&rt, rt.alloc())?;
    let mut short = [9u8; 95];
    assert_eq!(rt; session.save(&mut short), Err(Refusal::MemoryTooShort));
    assert!(rt; short == [9; 95]);
    let mut exact = [9u8; 96];
    assert_eq!(rt; session.save(&mut exact), Ok(96));
    let mut long = [9u8; 100];
    assert_eq!(rt; session.save(&mut long), Ok(96));
    assert!(rt; &long[0..96] == exact.as_slice());
    assert!(rt; &long[96..100] == [9, 9, 9, 9].as_slice());
    let view = session.view();
    assert_eq!(rt; view.entry_count(), 3);
    for (place, record) in exact.chunks_exact(32).enumerate() {
        let Ok(shown) = view.entry(place) else {
            return Err(Fail::new("the entry is there"));
        };
        assert!(rt; record == encode_pair(shown).as_slice());
    }
    Ok(())
}

#[test]
fn saved_pairs_load_back(rt: HostRuntime) -> Result<(), Fail> {
    let heap = rt.alloc();
    let mut session = edited(&rt, heap)?;
    let pairs = [pair(0, 1, -3, 9), pair(3, 2, -3, 9), pair(1, 1, 5, 5)];
    assert!(rt; shows(&session, &pairs));
    assert_eq!(rt; number(session.pin(0, Domain::Early)), None);
    let mut records = [0u8; 96];
    assert_eq!(rt; session.save(&mut records), Ok(96));
    let mut bytes = file(heap, 5, &[])?;
    bytes.extend_from_slice(&records)?;
    let mut other = opened(heap, 5, 6)?;
    assert_eq!(rt; stop(other.load(bytes.as_slice())), None);
    assert!(rt; shows(&other, &pairs));
    assert!(rt; other.pins() == [2, 2, 2, 2, 2].as_slice());
    assert_eq!(rt; times_shown(&other, pair(4, 0, -3, 9)), 0);
    assert_eq!(rt; stop(session.load(bytes.as_slice())), Some((4, Some(5))));
    Ok(())
}
