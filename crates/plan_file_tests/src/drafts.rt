// Two registers with a pair each way: 0 to 1 (2, 6) and 1 to 0 (1, 2). With register 1 late by 2, period 4 is legal.
use crate::samples::{circuit_file, draft, opened};
use delay_file::encoding::encode_pair;
use plan_file::checked::check;
use plan_file::draft::Draft;
use plan_file::slack::slack_at;
use std::alloc::Global;
use std::test::Fail;
use timing::domain;
use timing::limits::MISSING_DELAY;
use timing::pair::Pair;
use timing::refusal::{Part, Refusal};

const FREE: [u8; 2] = [domain::FREE; 2];

fn circuit(heap: Global) -> Result<Vec<u8>, Fail> {
    let pairs = [
        Pair {
            launch: 0,
            capture: 1,
            min: 2,
            max: 6,
        },
        Pair {
            launch: 1,
            capture: 0,
            min: 1,
            max: 2,
        },
    ];
    circuit_file(heap, &[b"ra", b"rb"], &pairs)
}

// What check refuses a draft with, over a file.
fn refusal(
    file: &[u8],
    pins: &[u8],
    ceiling: u32,
    draft: Draft<'_>,
) -> Result<Option<Refusal>, Fail> {
    let view = opened(file)?;
    let answer = check(&view, pins, ceiling, draft);
    Ok(answer.err().map(|refused| refused.refusal))
}

// The draft of two registers with the domains turned.
fn turned(period: u32, offset: u32) -> Draft<'static> {
    Draft {
        period,
        offset,
        domains: &[1, 0],
    }
}

#[test]
fn a_legal_draft_is_taken(rt: HostRuntime) -> Result<(), Fail> {
    let file = circuit(rt.alloc())?;
    assert_eq!(rt; refusal(&file, &FREE, 1_000_000, draft(4, 2))?, None);
    assert_eq!(rt; refusal(&file, &[0, 1], 2, draft(4, 2))?, None);
    assert_eq!(rt;
        refusal(
            &file,
            &FREE,
            0,
            Draft {
                period: 6,
                offset: 0,
                domains: &[7, 0],
            },
        )?,
        None
    );
    Ok(())
}

// The answer that names this as broken first.
fn not_legal(part: Part, place: usize, excess: u32) -> Option<Refusal> {
    Some(Refusal::DraftNotLegal {
        part,
        place,
        excess,
    })
}

#[test]
fn the_first_broken_limit_is_named(rt: HostRuntime) -> Result<(), Fail> {
    let file = circuit(rt.alloc())?;
    assert_eq!(rt;
        refusal(&file, &[1, 0], 1, draft(3, 2))?,
        not_legal(Part::Ceiling, 0, 1)
    );
    assert_eq!(rt;
        refusal(&file, &[0, 0], 2, draft(3, 2))?,
        not_legal(Part::Pin, 1, 0)
    );
    assert_eq!(rt;
        refusal(&file, &FREE, 2, draft(3, 2))?,
        not_legal(Part::Setup, 0, 1)
    );
    assert_eq!(rt;
        refusal(&file, &FREE, 3, draft(4, 3))?,
        not_legal(Part::Hold, 0, 1)
    );
    assert_eq!(rt;
        refusal(&file, &FREE, 9, turned(8, 3))?,
        not_legal(Part::Setup, 0, 1)
    );
    assert_eq!(rt;
        refusal(&file, &FREE, 9, turned(9, 3))?,
        not_legal(Part::Hold, 1, 2)
    );
    Ok(())
}

#[test]
fn refusals_come_in_their_order(rt: HostRuntime) -> Result<(), Fail> {
    let mut file = circuit(rt.alloc())?;
    assert_eq!(rt;
        refusal(&file, &[], 1_000_001, draft(0, 0))?,
        Some(Refusal::PeriodOutOfLimits)
    );
    assert_eq!(rt;
        refusal(&file, &[], 1_000_001, draft(4_096_000_001, 0))?,
        Some(Refusal::PeriodOutOfLimits)
    );
    assert_eq!(rt;
        refusal(&file, &[], 1_000_001, draft(1, 0))?,
        Some(Refusal::OffsetOutOfLimits)
    );
    assert_eq!(rt;
        refusal(&file, &[], 0, draft(1, 1_000_001))?,
        Some(Refusal::OffsetOutOfLimits)
    );
    assert_eq!(rt;
        refusal(&file, &[2], 0, draft(4, 2))?,
        Some(Refusal::MemoryTooShort)
    );
    let short = Draft {
        period: 4,
        offset: 2,
        domains: &[0],
    };
    assert_eq!(rt;
        refusal(&file, &FREE, 0, short)?,
        Some(Refusal::MemoryTooShort)
    );
    file.extend_from_slice(&encode_pair(Pair {
        launch: 0,
        capture: 1,
        min: MISSING_DELAY,
        max: 6,
    }))?;
    assert_eq!(rt;
        refusal(&file, &[], 0, draft(4, 2))?,
        Some(Refusal::FaultyEntry { place: 2 })
    );
    Ok(())
}

#[test]
fn too_many_entries(rt: HostRuntime) -> Result<(), Fail> {
    let mut file = circuit(rt.alloc())?;
    let record = encode_pair(Pair {
        launch: 0,
        capture: 0,
        min: 0,
        max: 1,
    });
    // Memory for each can run out, so a chain would be no plainer.
    for _ in 0..16_382 {
        file.extend_from_slice(&record)?;
    }
    assert_eq!(rt; refusal(&file, &FREE, 9, draft(4, 2))?, None);
    file.extend_from_slice(&[0; 32])?;
    assert_eq!(rt;
        refusal(&file, &[], 9, draft(4, 2))?,
        Some(Refusal::TooManyEntries)
    );
    Ok(())
}

#[test]
fn slack_of_the_entries(rt: HostRuntime) -> Result<(), Fail> {
    let file = circuit(rt.alloc())?;
    let view = opened(&file)?;
    assert_eq!(rt; slack_at(&view, &draft(4, 2), 0), Ok(0));
    assert_eq!(rt; slack_at(&view, &draft(4, 2), 1), Ok(0));
    assert_eq!(rt; slack_at(&view, &draft(3, 2), 0), Ok(-1));
    assert_eq!(rt; slack_at(&view, &draft(4, 2), 2), Err(Refusal::NoSuchEntry));
    assert_eq!(rt;
        slack_at(&view, &draft(0, 2), 2),
        Err(Refusal::PeriodOutOfLimits)
    );
    assert_eq!(rt;
        slack_at(&view, &draft(4, 1_000_001), 2),
        Err(Refusal::OffsetOutOfLimits)
    );
    assert_eq!(rt;
        slack_at(
            &view,
            &Draft {
                period: 4,
                offset: 2,
                domains: &[0],
            },
            2,
        ),
        Err(Refusal::MemoryTooShort)
    );
    Ok(())
}
