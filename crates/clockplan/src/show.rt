ghost use Rattle.std.specs.Prelude.{◌≡◌, ◌+◌, ◌^◌, ◌<◌, IfOk};
ghost use Rattle.clockplan.specs.Counts.{faulty_count};
ghost use Rattle.timing.specs.Meaning.{entry_at, is_faulty};
ghost use Rattle.clockplan.specs.Verdicts.{faultless, is_granted};
ghost use Rattle.delay_file.specs.Files.{opening, view_meaning, view_registers};

use crate::commands::Outcome;
use crate::files::read_bytes;
use crate::show_plan::{is_plan, show_plan};
use crate::shown::{ShownPair, ShownRegister};
use delay_file::fault::Fault;
use delay_file::layout::RECORD_BYTES;
use delay_file::reading::{Record, decode};
use delay_file::view::FileView;
use std::fmt::Write;
use timing::source::DelaySource;

// Prints the records of a delay file or of a plan file, a line each. No fault ends the list.
pub(crate) fn show(rt: &HostRuntime, path: &str) -> anyhow::Result<Outcome> {
    let heap = rt.alloc();
    let bytes = read_bytes(rt, path)?;
    let mut out = String::new(heap);
    let outcome = if is_plan(bytes.as_slice()) {
        show_plan(heap, bytes.as_slice(), &mut out)?
    } else {
        show_delays(bytes.as_slice(), &mut out)?
    };
    rt.print(out.as_str())?;
    Ok(outcome)
}

// The records of a delay file. It is granted exactly where the file opens and no entry is faulty.
fn show_delays(bytes: &[u8], out: &mut String) -> anyhow::Result<Outcome>
    ensures { IfOk result (λ o. is_granted o ≡ faultless (opening bytes.now)) }
{
    match FileView::open(bytes) {
        Ok(view) => Ok(Outcome::granted_if(show_opened(&view, out)? == 0)),
        Err(fault) => {
            show_unopened(bytes, fault, out)?;
            Ok(Outcome::Refused)
        }
    }
}

// The records of a file that opens. Answers how many of its entries are faulty.
fn show_opened(view: &FileView<'_>, out: &mut String) -> anyhow::Result<usize>
    ensures { IfOk result (λ n. n ≡ faulty_count (view_meaning view.now).entries) }
{
    let registers = view.registers();
    // Every line can fail, so a chain would be no plainer.
    for number in 0..registers {
        let register = ShownRegister::named(view, number);
        writeln!(out, "record {number}: register {register}")?;
    }
    let faults = show_entries(view, out)?;
    let entries = view.entry_count();
    writeln!(
        out,
        "registers {registers}, entries {entries}, faulty {faults}"
    )?;
    Ok(faults)
}

// The entries of a file. Answers how many are faulty.
fn show_entries(view: &FileView<'_>, out: &mut String) -> anyhow::Result<usize>
    ensures { IfOk result (λ n. n ≡ faulty_count (view_meaning view.now).entries) }
{
    let mut faults: usize = 0;
    // Every line can fail, so no chain counts the entries that it shows.
    for place in 0..view.entry_count() {
        if show_entry(view, place, out)? {
            faults += 1;
        }
    }
    Ok(faults)
}

// The record of the entry at a place, which the registers stand before.
pub(crate) fn record_of(view: &FileView<'_>, place: usize) -> usize
    ensures { place < 2 ^ 63 → result ≡ view_registers view.now + place }
{
    (view.registers() as usize).saturating_add(place)
}

// One entry: its pair, or what is wrong with it. Answers whether it is faulty.
fn show_entry(view: &FileView<'_>, place: usize, out: &mut String) -> anyhow::Result<bool>
    ensures { IfOk result (λ b. b ≡ is_faulty (entry_at (view_meaning view.now) place)) }
{
    let record = record_of(view, place);
    match view.pair(place) {
        Ok(pair) => {
            let pair = ShownPair::named(view, pair);
            writeln!(out, "record {record}: {pair}")?;
            Ok(false)
        }
        Err(fault) => {
            show_faulty(view, record, fault, out)?;
            Ok(true)
        }
    }
}

// A faulty entry: what is wrong with it, and what the record says where it can be read.
pub(crate) fn show_faulty(
    view: &FileView<'_>,
    record: usize,
    fault: Fault,
    out: &mut String,
) -> anyhow::Result<()> {
    match view.record(record) {
        Ok(Record::Delay(pair)) => {
            let pair = ShownPair::named(view, pair);
            writeln!(out, "{fault} ({pair})")?;
        }
        Ok(Record::Register { number, name }) => {
            let register = ShownRegister {
                number,
                name: Some(name),
            };
            writeln!(out, "{fault} (register {register} behind the registers)")?;
        }
        Err(_) => writeln!(out, "{fault}")?,
    }
    Ok(())
}

// A file that does not open: why, and each of its records as it reads by itself.
fn show_unopened(bytes: &[u8], fault: Fault, out: &mut String) -> anyhow::Result<()> {
    writeln!(out, "{fault}")?;
    writeln!(
        out,
        "the file does not open; its records, each read by itself:"
    )?;
    for (number, part) in bytes.chunks(RECORD_BYTES).enumerate() {
        match decode(part, number) {
            Ok(record) => show_record(number, record, out)?,
            Err(fault) => writeln!(out, "{fault}")?,
        }
    }
    Ok(())
}

// A record that reads, by itself.
fn show_record(at: usize, record: Record<'_>, out: &mut String) -> anyhow::Result<()> {
    match record {
        Record::Register { number, name } => {
            let register = ShownRegister {
                number,
                name: Some(name),
            };
            writeln!(out, "record {at}: register {register} (number {number})")?;
        }
        Record::Delay(pair) => {
            let pair = ShownPair::numbered(pair);
            writeln!(out, "record {at}: {pair}")?;
        }
    }
    Ok(())
}
