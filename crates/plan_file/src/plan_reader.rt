// Plan files, read: the records of a file, one by one, and the domains that its words hold.
ghost use Rattle.std.specs.Prelude.{◌≡◌, ◌^◌, ◌<◌, ◌≤◌, ◌&&◌, ◌++◌, map, length, drop, IfOk, if◌then◌else◌, Some, None, nat_le, nat_lt};
ghost use Rattle.plan_file.specs.PlanRead.{RestStays, WordsFound, read_as};
ghost use Rattle.delay_file.specs.Bytes.{be64};
ghost use Rattle.plan_file.specs.PlanReading.{bit_of, domain_bit, plan_reading, word_good};
ghost use Rattle.delay_file.specs.Files.{record_count};
ghost use Rattle.plan_file.specs.PlanRecords.{plan_bytes, word_count};
ghost use Rattle.std.specs.List.{range_with_len};
ghost use Rattle.timing.specs.Outcomes.{offset_within, period_within};

use crate::draft::Draft;
use crate::head::Head;
pub use crate::plan_records::WORD_REGISTERS;
use crate::plan_records::{is_laid_out, word_count};
use delay_file::fault::Fault;
use delay_file::fields::{number_at, word_at};
use delay_file::layout::{Kind, RECORD_BYTES, record_bytes};
use timing::limits::{MAX_REGISTERS, check_offset, check_period};
use timing::refusal::Refusal;

// The numbers of a plan that was read. Nobody has checked it, so it is only good for a draft.
#[derive(Clone, Copy, PartialEq, Eq, Debug)]
pub struct PlanNumbers {
    pub period: u32,
    pub offset: u32,
    pub registers: u32,
}

impl PlanNumbers {
    // The draft that these numbers make with the domains that were read.
    pub fn draft<'d>(self, domains: &'d [u8]) -> Draft<'d>
        ensures { (result.period ≡ self.period) × (result.offset ≡ self.offset) × (result.domains.now ≡ domains.now) }
    {
        Draft {
            period: self.period,
            offset: self.offset,
            domains,
        }
    }

    // Whether these are the numbers of a plan file.
    pub(crate) fn is_within_limits(self) -> bool
        ensures { result ≡ period_within self.period && (offset_within self.offset && (nat_le 1 self.registers && nat_le self.registers 4096)) }
    {
        check_period(self.period).is_ok()
            && check_offset(self.offset).is_ok()
            && (1..=MAX_REGISTERS).contains(&self.registers)
    }
}

// Reads a plan file: its numbers, and a byte of domain memory for each of its registers, 1 where it is late and 0 where
// it is early. Memory past the registers stays as it was. Refused with 12, then with 13 at the first record that breaks
// the format, then with 9; a refusal leaves the memory whole. What reads is, byte for byte, what writing that plan gives.
pub fn read_plan(bytes: &[u8], domains: &mut [u8]) -> Result<PlanNumbers, Fault>
    ensures answer { read_as result domains.new ≡ plan_reading bytes.now (length domains.old) }
    ensures rest { RestStays domains.old domains.new result }
    ensures spelled { IfOk result (λ p. bytes.now ≡ plan_bytes p.period p.offset p.registers domains.new) }
{
    if bytes.len() % RECORD_BYTES != 0 {
        return Err(Fault::of_file(Refusal::NotWholeRecords));
    }
    let head = Head::read(record_bytes(bytes, 0)).ok_or(Fault::at(Refusal::MalformedRecord, 0))?;
    let numbers = head.numbers;
    if ones_in_words(bytes, numbers.registers)? != head.late {
        return Err(Fault::at(Refusal::MalformedRecord, 0));
    }
    if domains.len() < numbers.registers as usize {
        return Err(Fault::of_file(Refusal::MemoryTooShort));
    }
    fill_domains(bytes, numbers.registers, domains);
    Ok(numbers)
}

// How many ones the words of a file have, if each record behind its head is as it should be; else the first that is not.
fn ones_in_words(bytes: &[u8], registers: u32) -> Result<u32, Fault>
    requires { registers ≤ 4096 }
    ensures { WordsFound bytes.now registers result }
{
    let words = word_count(registers);
    let mut late = 0;
    // Any turn can end this with the record at fault, so a sum over a chain would be no plainer.
    for word in 0..words {
        let record = 1 + word;
        let bits = word_in(record_bytes(bytes, record), 64 * word as u32, registers).ok_or(
            Fault::at(Refusal::MalformedRecord, record),
        )?;
        late += bits.count_ones();
    }
    if bytes.len() / RECORD_BYTES > 1 + words {
        return Err(Fault::at(Refusal::MalformedRecord, 1 + words));
    }
    Ok(late)
}

// The word in a record, if it is the one of the registers from `first` on. Bits past the last register must be zero.
fn word_in(record: &[u8], first: u32, registers: u32) -> Option<u64>
    ensures { result ≡ (if word_good registers first «record».now then Some (be64 «record».now 8) else None) }
{
    let word = word_at(record, 8)?;
    let ones = word.count_ones() as u8;
    let is_good = is_laid_out(record, Kind::Word, ones, 16)
        && number_at(record, 4)? == first
        && is_below_bit(word, registers.saturating_sub(first));
    is_good.then_some(word)
}

// Whether a word has no bits from this one on.
fn is_below_bit(word: u64, bits: u32) -> bool
    ensures { result ≡ nat_lt word (2 ^ bits) }
{
    bits >= 64 || word >> bits == 0
}

// Fills domain memory from the words of a file, a byte for each register.
fn fill_domains(bytes: &[u8], registers: u32, domains: &mut [u8])
    requires room { registers ≤ length domains.old }
    requires words { word_count registers < record_count bytes.now }
    ensures { domains.new ≡ map (domain_bit bytes.now) (range_with_len 0 registers) ++ drop registers domains.old }
{
    // Each word goes to the part of the lent memory that is its registers'; chunks of the memory would say it no plainer.
    for word in 0..word_count(registers) {
        let first = WORD_REGISTERS * word;
        let end = (first + WORD_REGISTERS).min(registers as usize);
        let bits = word_at(record_bytes(bytes, 1 + word), 8).unwrap_or(0);
        fill_word(bits, &mut domains[first..end]);
    }
}

// Fills the domain memory of a word's registers, a byte for each.
fn fill_word(word: u64, domains: &mut [u8])
    requires { length domains.old ≤ 64 }
    ensures { domains.new ≡ map (bit_of word) (range_with_len 0 (length domains.old)) }
{
    for (i, domain) in domains.iter_mut().enumerate() {
        *domain = ((word >> i) % 2) as u8;
    }
}
