ghost use Rattle.std.specs.Prelude.{◌≡◌, ℕ, ◌+◌, ◌-◌, ◌/◌, ◌<◌, ◌≤◌, ◌↔◌, ltb, length, IfOk, if◌then◌else◌, Some, None, IsTrue, MatchBool};
ghost use Rattle.timing.specs.Bounds.{RegisterCount};

use crate::entry::entry_in;
use crate::fault::Fault;
use crate::fields::u32_at;
use crate::layout::{RECORD_BYTES, record_bytes};
use crate::leading::leading_registers;
use crate::reading::{Record, decode};
use timing::limits::MAX_REGISTERS;
use timing::pair::Pair;
use timing::refusal::Refusal;

// A delay file that was opened: the file itself, and how many of its records are registers.
#[derive(Clone, Copy)]
pub struct FileView<'a> {
    bytes: &'a [u8],
    registers: u32,
    pub ghost registers_within: { RegisterCount registers },
    pub ghost registers_there: { registers ≤ length bytes.now / 32 },
}

impl<'a> FileView<'a> {
    ghost use Rattle.delay_file.specs.Files.{JoinsAt, entry_answer, opened_as, opening, record_answer, record_count, register_name, register_run, view_registers};
    ghost use Rattle.delay_file.specs.Records.{borrowed, seen, seen_pair};
    ghost use Rattle.timing.specs.declared.refusal.Refusal.TheVariants.{NoSuchEntry};

    // Opens a file: its length, then the register records at its start, then their number. What comes after them is
    // not looked at; each later record is an entry, and may turn out faulty when it is asked for.
    pub fn open(bytes: &'a [u8]) -> Result<FileView<'a>, Fault>
        ensures answer { opened_as result ≡ opening bytes.now }
        ensures same { IfOk result (λ v. v.bytes.now ≡ bytes.now) }
        ensures count { IfOk result (λ v. (v.registers ≡ register_run bytes.now) × (v.registers ≡ view_registers v)) }
    {
        if bytes.len() % RECORD_BYTES != 0 {
            return Err(Fault::of_file(Refusal::NotWholeRecords));
        }
        let registers = leading_registers(bytes)?;
        if !(1..=MAX_REGISTERS as usize).contains(&registers) {
            return Err(Fault::of_file(Refusal::RegisterCount));
        }
        Ok(FileView {
            bytes,
            registers: registers as u32,
        })
    }

    // How many registers the file has.
    pub fn registers(&self) -> u32
        ensures { result ≡ view_registers self.now }
    {
        self.registers
    }

    // How many records the file has, registers and entries.
    pub fn record_count(&self) -> usize
        ensures { result ≡ record_count self.now.bytes.now }
    {
        self.bytes.len() / RECORD_BYTES
    }

    // How many records stand behind the registers.
    pub(crate) fn entries(&self) -> usize
        ensures { result ≡ record_count self.now.bytes.now - view_registers self.now }
    {
        self.record_count() - self.registers as usize
    }

    // A record by its number in the file, as it reads by itself.
    pub fn record(&self, number: usize) -> Result<Record<'a>, Fault>
        ensures { seen result ≡ record_answer self.now number }
    {
        if number >= self.record_count() {
            return Err(Fault::of_file(Refusal::NoSuchEntry));
        }
        decode(record_bytes(self.bytes, number), number)
    }

    // The name of a register, which is that part of the file itself.
    pub fn name(&self, register: u32) -> Option<&'a [u8]>
        ensures { borrowed result ≡ register_name self.now register }
    {
        if register >= self.registers {
            return None;
        }
        self.record(register as usize).ok()?.name()
    }

    // The entry at a place, counted from 0 behind the registers, with the record at fault where it is faulty.
    #[inline]
    pub fn pair(&self, place: usize) -> Result<Pair, Fault>
        ensures { seen_pair result ≡ entry_answer self.now place }
    {
        if place >= self.entries() {
            return Err(Fault::of_file(Refusal::NoSuchEntry));
        }
        let record = self.registers as usize + place;
        entry_in(record_bytes(self.bytes, record), record, self.registers)
    }

    // A refusal of the entry at a place, with its record.
    pub fn fault_at(&self, place: usize, refusal: Refusal) -> Fault
        ensures { result ≡ (if ltb place (record_count self.now.bytes.now - view_registers self.now) then (record { refusal = refusal; «record» = Some (view_registers self.now + place) }) else (record { refusal = NoSuchEntry; «record» = None })) }
    {
        if place >= self.entries() {
            return Fault::of_file(Refusal::NoSuchEntry);
        }
        Fault::at(refusal, self.registers as usize + place)
    }

    // Whether an entry before a place goes from one register to another by its fields, whatever else is wrong with it. (The two
    // come as numbers, as callers have them; a struct of them would be taken apart at once.)
    pub fn joins_before(&self, place: usize, launch: u32, capture: u32) -> bool
        ensures { MatchBool result ((k : ℕ) × (k < place) × JoinsAt self.now k launch capture) ((k : ℕ) → k < place → JoinsAt self.now k launch capture → ⊥) }
    {
        (0..place.min(self.entries())).any(|earlier| self.joins_at(earlier, launch, capture))
    }

    // Whether the entry at a place goes from one register to another by its fields.
    fn joins_at(&self, place: usize, launch: u32, capture: u32) -> bool
        ensures { IsTrue result ↔ JoinsAt self.now place launch capture }
    {
        if place >= self.entries() {
            return false;
        }
        let at = (self.registers as usize + place) * RECORD_BYTES;
        u32_at(self.bytes, at + 4) == launch && u32_at(self.bytes, at + 8) == capture
    }
}
