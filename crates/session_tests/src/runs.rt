// Lists of calls, and what each was answered.
use crate::making::{file, opened, pair, shows};
use delay_file::encoding::encode_pair;
use delay_file::fault::Fault;
use planner::call::{Answer, Call};
use planner::runs::{Unserved, run, run_from_opening};
use std::process::Abort;
use std::test::Fail;
use timing::domain::Domain;
use timing::pair::Pair;
use timing::refusal::Refusal;

// An answer made comparable: of what was saved, its length.
#[derive(Clone, Copy, PartialEq, Eq, Debug)]
enum Seen {
    Edited(Result<(), Refusal>),
    Loaded(Result<(), Fault>),
    Saved(Option<usize>),
    Registers(u32),
    Entries(usize),
    Shown(Result<Pair, Refusal>),
}

impl From<&Answer> for Seen {
    fn from(answer: &Answer) -> Seen {
        match answer {
            Answer::Edited(result) => Seen::Edited(*result),
            Answer::Loaded(result) => Seen::Loaded(*result),
            Answer::Saved(Ok(bytes)) => Seen::Saved(Some(bytes.len())),
            Answer::Saved(Err(_)) => Seen::Saved(None),
            Answer::Registers(count) => Seen::Registers(*count),
            Answer::Entries(count) => Seen::Entries(*count),
            Answer::Shown(result) => Seen::Shown(*result),
        }
    }
}

const GRANTED: Seen = Seen::Edited(Ok(()));

// Each answer is the one expected in its place, and there is one for each.
fn check_answers(rt: &impl Abort, answers: &[Answer], expected: &[Seen]) {
    assert_eq!(rt; answers.len(), expected.len());
    for (answer, wanted) in answers.iter().zip(expected) {
        assert_eq!(rt; Seen::from(answer), *wanted);
    }
}

#[test]
fn calls_granted_and_refused(rt: HostRuntime) -> Result<(), Fail> {
    let heap = rt.alloc();
    let mut session = opened(heap, 3, 2)?;
    let (first, second) = (pair(0, 1, 2, 6), pair(1, 0, 1, 2));
    let calls = [
        Call::RegisterCount,
        Call::Add(first),
        Call::Add(first),
        Call::Add(pair(0, 3, 2, 6)),
        Call::Retime(pair(0, 1, 4, 5)),
        Call::Retime(second),
        Call::Load(file(heap, 3, &[second])?),
        Call::Load(file(heap, 3, &[second])?),
        Call::Load(file(heap, 2, &[])?),
        Call::EntryCount,
        Call::Add(pair(2, 2, 0, 0)),
        Call::DropPair {
            launch: 1,
            capture: 1,
        },
        Call::DropPair {
            launch: 1,
            capture: 0,
        },
        Call::Save,
        Call::Entry(0),
        Call::Entry(1),
        Call::Pin {
            register: 2,
            domain: Domain::Late,
        },
        Call::Pin {
            register: 3,
            domain: Domain::Late,
        },
        Call::Pin {
            register: 1,
            domain: Domain::Early,
        },
        Call::Unpin(1),
        Call::SetCeiling(1_000_001),
        Call::SetCeiling(12),
    ];
    let answers = run(&mut session, heap, &calls)?;
    check_answers(
        &rt,
        answers.as_slice(),
        &[
            Seen::Registers(3),
            GRANTED,
            Seen::Edited(Err(Refusal::PairPresent)),
            Seen::Edited(Err(Refusal::NoSuchRegister)),
            GRANTED,
            Seen::Edited(Err(Refusal::NoSuchEntry)),
            Seen::Loaded(Ok(())),
            Seen::Loaded(Err(Fault::at(Refusal::PairPresent, 3))),
            Seen::Loaded(Err(Fault::of_file(Refusal::RegisterCount))),
            Seen::Entries(2),
            Seen::Edited(Err(Refusal::TooManyEntries)),
            Seen::Edited(Err(Refusal::NoSuchEntry)),
            GRANTED,
            Seen::Saved(Some(32)),
            Seen::Shown(Ok(pair(0, 1, 4, 5))),
            Seen::Shown(Err(Refusal::NoSuchEntry)),
            GRANTED,
            Seen::Edited(Err(Refusal::NoSuchRegister)),
            GRANTED,
            GRANTED,
            Seen::Edited(Err(Refusal::OffsetOutOfLimits)),
            GRANTED,
        ],
    );
    let Some(Answer::Saved(Ok(saved))) = answers.get(13) else {
        return Err(Fail::new("the pair is saved"));
    };
    assert!(rt; saved.as_slice() == encode_pair(pair(0, 1, 4, 5)).as_slice());
    assert!(rt; shows(&session, &[pair(0, 1, 4, 5)]));
    assert!(rt; session.pins() == [2, 2, 1].as_slice());
    assert_eq!(rt; session.ceiling(), 12);
    Ok(())
}

#[test]
fn runs_from_opening(rt: HostRuntime) -> Result<(), Fail> {
    let heap = rt.alloc();
    let spare = pair(9, 8, 7, 6);
    let calls = [
        Call::EntryCount,
        Call::Entry(0),
        Call::Add(pair(1, 1, 2, 6)),
        Call::Add(pair(0, 1, 2, 6)),
        Call::Entry(0),
        Call::Save,
    ];
    let Ok(answers) = run_from_opening(
        heap,
        2,
        vec![in heap; spare; 1]?,
        vec![in heap; 9u8; 2]?,
        &calls,
    ) else {
        return Err(Fail::new("the session opens"));
    };
    check_answers(
        &rt,
        answers.as_slice(),
        &[
            Seen::Entries(0),
            Seen::Shown(Err(Refusal::NoSuchEntry)),
            GRANTED,
            Seen::Edited(Err(Refusal::TooManyEntries)),
            Seen::Shown(Ok(pair(1, 1, 2, 6))),
            Seen::Saved(Some(32)),
        ],
    );
    let Err(Unserved::Unopened(unopened)) = run_from_opening(
        heap,
        3,
        vec![in heap; spare; 1]?,
        vec![in heap; 9u8; 2]?,
        &calls,
    ) else {
        return Err(Fail::new("the opening is refused"));
    };
    assert_eq!(rt; unopened.refusal, Refusal::MemoryTooShort);
    assert!(rt; unopened.pin_memory.as_slice() == [9, 9].as_slice());
    assert!(rt; unopened.pair_memory.as_slice() == [spare].as_slice());
    Ok(())
}
