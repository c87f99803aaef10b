// Checked plans written as files, over circuits without pairs: every choice of domains is legal there.
use crate::samples::{circuit_file, draft, opened};
use delay_file::fields::word_at;
use delay_file::layout::record_bytes;
use plan_file::checked::{CheckedPlan, RefusedDraft, check};
use plan_file::draft::Draft;
use std::alloc::Global;
use std::test::Fail;
use timing::domain::FREE;
use timing::refusal::Refusal;

// A delay file of so many registers and no pairs.
fn registers_file(heap: Global, count: usize) -> Result<Vec<u8>, Fail> {
    let name: &[u8] = b"r";
    circuit_file(heap, &vec![in heap; name; count]?, &[])
}

// What a plan of period 7 and offset 5 with these domains is written as, over a circuit without pairs.
pub(crate) fn written(heap: Global, domains: &[u8]) -> Result<Vec<u8>, Fail> {
    let file = registers_file(heap, domains.len())?;
    let view = opened(&file)?;
    let pins = vec![in heap; FREE; domains.len()]?;
    let draft = Draft {
        period: 7,
        offset: 5,
        domains,
    };
    put(heap, &legal(check(&view, &pins, 5, draft))?)
}

fn legal<'d>(answer: Result<CheckedPlan<'d>, RefusedDraft<'d>>) -> Result<CheckedPlan<'d>, Fail> {
    answer.map_err(|_| Fail::new("the draft is legal"))
}

fn put(heap: Global, plan: &CheckedPlan<'_>) -> Result<Vec<u8>, Fail> {
    let mut out = vec![in heap; 99; plan.file_length()]?;
    plan.write(&mut out)
        .map_err(|_| Fail::new("the memory is long enough"))?;
    Ok(out)
}

#[test]
fn three_registers(rt: HostRuntime) -> Result<(), Fail> {
    let out = written(rt.alloc(), &[1, 0, 1])?;
    let expected: [u8; 64] = [
        16, 0, 0, 0, 0, 0, 0, 7, 0, 0, 0, 5, 0, 0, 0, 3, 0, 0, 0, 2, 0, 0, 0, 0, 0, 0, 0, 0, 0, 0,
        0, 0, 17, 2, 0, 0, 0, 0, 0, 0, 0, 0, 0, 0, 0, 0, 0, 5, 0, 0, 0, 0, 0, 0, 0, 0, 0, 0, 0, 0,
        0, 0, 0, 0,
    ];
    assert!(rt; out.as_slice() == expected.as_slice());
    Ok(())
}

// The word of a record, and its count of ones.
fn word(out: &[u8], record: usize) -> (u64, u8) {
    let bytes = record_bytes(out, record);
    let ones = bytes.get(1).copied().unwrap_or(255);
    (word_at(bytes, 8).unwrap_or(0), ones)
}

#[test]
fn words_at_the_edges(rt: HostRuntime) -> Result<(), Fail> {
    let heap = rt.alloc();
    let cases = [
        (1usize, 1u64, 1u8),
        (63, 9_223_372_036_854_775_807, 63),
        (64, 18_446_744_073_709_551_615, 64),
    ];
    for (registers, all_late, ones) in cases {
        let late = vec![in heap; 1u8; registers]?;
        assert_eq!(rt; word(&written(heap, &late)?, 1), (all_late, ones));
        let early = vec![in heap; 0u8; registers]?;
        assert_eq!(rt; word(&written(heap, &early)?, 1), (0, 0));
    }
    Ok(())
}

#[test]
fn more_than_one_word(rt: HostRuntime) -> Result<(), Fail> {
    let heap = rt.alloc();
    let late = vec![in heap; 1u8; 65]?;
    let out = written(heap, &late)?;
    assert_eq!(rt; out.len(), 96);
    assert_eq!(rt; word(&out, 1), (18_446_744_073_709_551_615, 64));
    assert_eq!(rt; word(&out, 2), (1, 1));
    let most = vec![in heap; 1u8; 4096]?;
    let out = written(heap, &most)?;
    assert_eq!(rt; out.len(), 65 * 32);
    assert_eq!(rt; word(&out, 64), (18_446_744_073_709_551_615, 64));
    Ok(())
}

#[test]
fn memory_that_is_too_short_stays(rt: HostRuntime) -> Result<(), Fail> {
    let file = registers_file(rt.alloc(), 2)?;
    let view = opened(&file)?;
    let plan = legal(check(&view, &[FREE, FREE], 5, draft(7, 5)))?;
    let mut short = [9u8; 63];
    assert_eq!(rt; plan.write(&mut short), Err(Refusal::MemoryTooShort));
    assert!(rt; short == [9; 63]);
    let mut long = [9u8; 66];
    assert_eq!(rt; plan.write(&mut long), Ok(64));
    assert_eq!(rt; long[64], 9);
    assert_eq!(rt; long[65], 9);
    Ok(())
}
