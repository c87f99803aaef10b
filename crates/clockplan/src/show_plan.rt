// Plan files, shown: a plan that reads, or the records of one that does not.
ghost use Rattle.std.specs.Prelude.{◌≡◌, ◌≤◌, ◌↔◌, ◌||◌, length, IfOk, IfSome, IsSome, ◌==◌, slice_index};
ghost use Rattle.clockplan.specs.Counts.{late_count};
ghost use Rattle.clockplan.specs.Verdicts.{is_granted, reads};
ghost use Rattle.delay_file.specs.Bytes.{be32};
ghost use Rattle.plan_file.specs.PlanReading.{plan_reading};

use crate::commands::Outcome;
use delay_file::fault::Fault;
use delay_file::fields::{number_at, word_at};
use delay_file::layout::{Kind, RECORD_BYTES};
use plan_file::plan_reader::{PlanNumbers, WORD_REGISTERS, read_plan};
use std::alloc::Global;
use std::fmt;
use std::fmt::Write;
use timing::domain::Domain;
use timing::limits::MAX_REGISTERS;

// Whether a file is to be shown as a plan, which the kind of its first record tells.
pub(crate) fn is_plan(bytes: &[u8]) -> bool
    ensures { result ≡ (slice_index bytes.now 0 == 16) || (slice_index bytes.now 0 == 17) }
{
    let first = bytes.first().copied();
    first == Some(Kind::Head.byte()) || first == Some(Kind::Word.byte())
}

// The numbers of a head: those of its plan, and how many registers are late.
#[derive(Clone, Copy)]
pub struct ShownHead {
    numbers: PlanNumbers,
    late: u32,
}

impl fmt::Display for ShownHead {
    fn fmt<W: fmt::Write>(&self, f: &mut fmt::Formatter<W>) -> fmt::Result {
        write!(
            f,
            "period {} offset {} registers {} late {}",
            self.numbers.period, self.numbers.offset, self.numbers.registers, self.late
        )
    }
}

// The records of a plan file. It is granted exactly where the file reads as a plan.
pub(crate) fn show_plan(heap: Global, bytes: &[u8], out: &mut String) -> anyhow::Result<Outcome>
    ensures { IfOk result (λ o. is_granted o ≡ reads (plan_reading bytes.now 4096)) }
{
    let mut domains = vec![in heap; 0; MAX_REGISTERS as usize]?;
    match read_plan(bytes, domains.as_mut_slice()) {
        Ok(numbers) => {
            show_read(numbers, domains.as_slice(), out)?;
            Ok(Outcome::Granted)
        }
        Err(fault) => {
            show_unread(bytes, fault, out)?;
            Ok(Outcome::Refused)
        }
    }
}

// A plan that reads: its numbers, and which registers of each word are late.
fn show_read(numbers: PlanNumbers, domains: &[u8], out: &mut String) -> anyhow::Result<()> {
    let registers = numbers.registers;
    let head = ShownHead {
        numbers,
        late: numbers.draft(domains).late_count(registers),
    };
    writeln!(out, "record 0: {head}")?;
    let end = domains.len().min(registers as usize);
    for (word, part) in domains[..end].chunks(WORD_REGISTERS).enumerate() {
        show_word(word, part, out)?;
    }
    Ok(())
}

// A word of domains by its number, with the late ones of its registers.
fn show_word(word: usize, domains: &[u8], out: &mut String) -> anyhow::Result<()> {
    let record = word.saturating_add(1);
    let first = word.saturating_mul(WORD_REGISTERS);
    let last = first.saturating_add(domains.len().saturating_sub(1));
    let late = late_in(domains);
    write!(
        out,
        "record {record}: registers {first} to {last}, late {late}"
    )?;
    if late > 0 {
        write!(out, ":")?;
    }
    for (at, byte) in domains.iter().enumerate() {
        if *byte == Domain::Late.byte() {
            let register = first.saturating_add(at);
            write!(out, " {register}")?;
        }
    }
    writeln!(out)?;
    Ok(())
}

// How many of these registers are late.
fn late_in(domains: &[u8]) -> usize
    ensures { result ≡ late_count domains.now }
{
    domains
        .iter()
        .filter(|byte| **byte == Domain::Late.byte())
        .count()
}

// A plan that does not read: why, and what each of its records says by itself.
fn show_unread(bytes: &[u8], fault: Fault, out: &mut String) -> anyhow::Result<()> {
    writeln!(out, "{fault}")?;
    writeln!(out, "the plan does not read; its records, each by itself:")?;
    for (number, part) in bytes.chunks(RECORD_BYTES).enumerate() {
        write!(out, "record {number}: ")?;
        show_part(part, out)?;
    }
    Ok(())
}

// What the bytes of a record say, whether or not they are right.
fn show_part(part: &[u8], out: &mut String) -> anyhow::Result<()> {
    let length = part.len();
    if length != RECORD_BYTES {
        writeln!(out, "{length} bytes")?;
        return Ok(());
    }
    let (kind, second) = (part[0], part[1]);
    match Kind::try_from(kind) {
        Ok(Kind::Head) => {
            if let Some(head) = head_in(part) {
                writeln!(out, "kind {kind}, byte 1 is {second}: {head}")?;
            }
        }
        Ok(Kind::Word) => {
            if let (Some(first), Some(word)) = (number_at(part, 4), word_at(part, 8)) {
                writeln!(
                    out,
                    "kind {kind}, byte 1 is {second}: first {first} word {word:016x}"
                )?;
            }
        }
        _ => writeln!(out, "kind {kind}")?,
    }
    Ok(())
}

// The numbers in the bytes of a head, if there are as many.
fn head_in(part: &[u8]) -> Option<ShownHead>
    ensures there { IsSome result ↔ (20 ≤ length part.now) }
    ensures numbers { IfSome result (λ h. (h.numbers.period ≡ be32 part.now 4) × (h.numbers.offset ≡ be32 part.now 8) × (h.numbers.registers ≡ be32 part.now 12)) }
    ensures late { IfSome result (λ h. h.late ≡ be32 part.now 16) }
{
    Some(ShownHead {
        numbers: PlanNumbers {
            period: number_at(part, 4)?,
            offset: number_at(part, 8)?,
            registers: number_at(part, 12)?,
        },
        late: number_at(part, 16)?,
    })
}
