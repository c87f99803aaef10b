// Reports of drafts, byte for byte.
use crate::samples::{circuit_file, draft};
use delay_file::fault::Fault;
use plan_file::draft::Draft;
use plan_report::report::report;
use std::alloc::Global;
use std::process::Abort;
use std::test::Fail;
use timing::refusal::Refusal;

fn file(heap: Global, names: &[&[u8]]) -> Result<Vec<u8>, Fail> {
    circuit_file(heap, names, &[])
}

// What a report of a file with two registers is refused with, given so much memory; it must leave that as it was.
fn refusal(
    rt: &impl Abort,
    file: &[u8],
    draft: Draft<'_>,
    room: usize,
) -> Result<Option<Fault>, Fail> {
    let mut memory = [9u8; 200];
    let out = memory
        .get_mut(..room)
        .ok_or_else(|| Fail::new("there is so much memory"))?;
    let fault = report(file, &draft, out).err();
    if fault.is_some() {
        assert!(rt; memory == [9; 200]);
    }
    Ok(fault)
}

#[test]
fn two_registers(rt: HostRuntime) -> Result<(), Fail> {
    let bytes = file(rt.alloc(), &[b"ra", b"rb"])?;
    let mut out = [9u8; 130];
    let text = b"period 4 offset 2 late 1\nra early\nrb late\n";
    assert_eq!(rt; report(&bytes, &draft(4, 2), &mut out), Ok(42));
    assert!(rt; out.starts_with(text));
    assert!(rt; out.iter().skip(42).all(|byte| *byte == 9));
    Ok(())
}

#[test]
fn longest_numbers_and_names(rt: HostRuntime) -> Result<(), Fail> {
    let name = b"abcdefghijklmnopqrstuvwx";
    let bytes = file(rt.alloc(), &[name, b"!"])?;
    let mut out = [0u8; 128];
    let text = b"period 4096000000 offset 1000000 late 1\nabcdefghijklmnopqrstuvwx early\n! late\n";
    assert_eq!(rt;
        report(&bytes, &draft(4_096_000_000, 1_000_000), &mut out),
        Ok(text.len())
    );
    assert!(rt; out.starts_with(text));
    Ok(())
}

#[test]
fn refusals_come_in_their_order(rt: HostRuntime) -> Result<(), Fail> {
    let heap = rt.alloc();
    let bytes = file(heap, &[b"ra", b"rb"])?;
    assert_eq!(rt;
        refusal(&rt, &[0; 5], draft(0, 0), 0)?,
        Some(Fault::of_file(Refusal::NotWholeRecords))
    );
    assert_eq!(rt;
        refusal(&rt, &bytes, draft(0, 1_000_001), 0)?,
        Some(Fault::of_file(Refusal::PeriodOutOfLimits))
    );
    assert_eq!(rt;
        refusal(&rt, &bytes, draft(4, 1_000_001), 0)?,
        Some(Fault::of_file(Refusal::OffsetOutOfLimits))
    );
    let short = Some(Fault::of_file(Refusal::MemoryTooShort));
    assert_eq!(rt; refusal(&rt, &bytes, draft(4, 2), 127)?, short);
    assert_eq!(rt; refusal(&rt, &bytes, draft(4, 2), 128)?, None);
    let one = Draft {
        period: 4,
        offset: 2,
        domains: &[0],
    };
    assert_eq!(rt; refusal(&rt, &bytes, one, 128)?, short);
    Ok(())
}
