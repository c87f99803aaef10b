// Plan files read: back as what was written, and damaged in every byte.
use crate::writing::written;
use delay_file::fault::Fault;
use plan_file::plan_reader::{PlanNumbers, read_plan};
use std::alloc::Global;
use std::process::Abort;
use std::test::Fail;
use timing::refusal::Refusal;

// Why a file is refused, given memory for 8 registers; a refusal must leave that as it was.
fn fault_of(rt: &impl Abort, bytes: &[u8]) -> Result<Option<Fault>, Fail> {
    let mut domains = [7u8; 8];
    let fault = read_plan(bytes, &mut domains).err();
    if fault.is_some() {
        assert!(rt; domains == [7; 8]);
    }
    Ok(fault)
}

// The numbers of a plan that reads.
fn read(bytes: &[u8], domains: &mut [u8]) -> Result<PlanNumbers, Fail> {
    read_plan(bytes, domains).map_err(|_| Fail::new("the plan reads"))
}

fn malformed(record: usize) -> Option<Fault> {
    Some(Fault::at(Refusal::MalformedRecord, record))
}

// The file of a plan of three registers, the first and the last late.
fn small(heap: Global) -> Result<Vec<u8>, Fail> {
    written(heap, &[1, 0, 1])
}

fn byte_at<'a>(bytes: &'a mut [u8], at: usize) -> Result<&'a mut u8, Fail> {
    bytes
        .get_mut(at)
        .ok_or_else(|| Fail::new("the byte is there"))
}

// The same with one byte changed.
fn changed(heap: Global, at: usize, mask: u8) -> Result<Vec<u8>, Fail> {
    let mut bytes = small(heap)?;
    *byte_at(&mut bytes, at)? ^= mask;
    Ok(bytes)
}

// The record at fault after one bit of a byte was turned, the lowest or the highest; none where it is another plan then.
fn at_fault(byte: usize, mask: u8) -> Option<usize> {
    match byte {
        4..=7 => None,
        9 if mask == 1 => None,
        10 | 11 => None,
        14 if mask == 1 => Some(2),
        15 if mask == 1 => Some(1),
        15 => Some(2),
        0..=31 => Some(0),
        _ => Some(1),
    }
}

#[test]
fn every_byte_damaged(rt: HostRuntime) -> Result<(), Fail> {
    let heap = rt.alloc();
    // The place of a byte decides what is expected, so each is damaged by its place.
    for at in 0..64 {
        for mask in [1u8, 128] {
            assert_eq!(rt;
                fault_of(&rt, &changed(heap, at, mask)?)?,
                at_fault(at, mask).and_then(malformed)
            );
        }
    }
    Ok(())
}

#[test]
fn numbers_and_domains(rt: HostRuntime) -> Result<(), Fail> {
    let bytes = small(rt.alloc())?;
    let mut domains = [7u8; 5];
    let numbers = read(&bytes, &mut domains)?;
    assert_eq!(rt;
        numbers,
        PlanNumbers {
            period: 7,
            offset: 5,
            registers: 3,
        }
    );
    assert!(rt; domains == [1, 0, 1, 7, 7]);
    let draft = numbers.draft(&domains);
    assert_eq!(rt;
        (draft.period, draft.offset, draft.late_count(3)),
        (7, 5, 2)
    );
    Ok(())
}

#[test]
fn too_little_memory_comes_last(rt: HostRuntime) -> Result<(), Fail> {
    let heap = rt.alloc();
    let bytes = small(heap)?;
    let mut domains = [7u8; 2];
    assert_eq!(rt;
        read_plan(&bytes, &mut domains).err(),
        Some(Fault::of_file(Refusal::MemoryTooShort))
    );
    assert!(rt; domains == [7, 7]);
    assert_eq!(rt;
        read_plan(&changed(heap, 63, 1)?, &mut domains).err(),
        malformed(1)
    );
    Ok(())
}

#[test]
fn records_that_lack_or_are_too_many(rt: HostRuntime) -> Result<(), Fail> {
    let heap = rt.alloc();
    let mut bytes = small(heap)?;
    bytes.extend_from_slice(&[0; 32])?;
    assert_eq!(rt; fault_of(&rt, &bytes)?, malformed(2));
    bytes.truncate(63);
    assert_eq!(rt;
        fault_of(&rt, &bytes)?,
        Some(Fault::of_file(Refusal::NotWholeRecords))
    );
    bytes.truncate(32);
    assert_eq!(rt; fault_of(&rt, &bytes)?, malformed(1));
    bytes.truncate(0);
    assert_eq!(rt; fault_of(&rt, &bytes)?, malformed(0));
    Ok(())
}

#[test]
fn a_wrong_late_number_is_named_last(rt: HostRuntime) -> Result<(), Fail> {
    let heap = rt.alloc();
    assert_eq!(rt; fault_of(&rt, &changed(heap, 19, 1)?)?, malformed(0));
    let mut bytes = changed(heap, 19, 1)?;
    *byte_at(&mut bytes, 33)? = 3;
    assert_eq!(rt; fault_of(&rt, &bytes)?, malformed(1));
    Ok(())
}

// Writes a plan with these domains and reads it back.
fn goes_round(rt: &impl Abort, heap: Global, domains: &[u8]) -> Result<(), Fail> {
    let bytes = written(heap, domains)?;
    let mut back = vec![in heap; 9u8; domains.len()]?;
    let numbers = read(&bytes, &mut back)?;
    assert_eq!(rt; (numbers.period, numbers.offset), (7, 5));
    assert_eq!(rt; numbers.registers as usize, domains.len());
    assert!(rt; back.as_slice() == domains);
    Ok(())
}

#[test]
fn plans_of_all_sizes_go_round(rt: HostRuntime) -> Result<(), Fail> {
    let heap = rt.alloc();
    for registers in [1usize, 63, 64, 65, 4096] {
        let mut domains = vec![in heap; 0u8; registers]?;
        goes_round(&rt, heap, &domains)?;
        for domain in domains.iter_mut().step_by(3) {
            *domain = 1;
        }
        goes_round(&rt, heap, &domains)?;
        let late = vec![in heap; 1u8; registers]?;
        goes_round(&rt, heap, &late)?;
    }
    Ok(())
}
