// The records of a plan file: how they are laid out, and a word of domains, written.
ghost use Rattle.std.specs.Prelude.{◌≡◌, ◌+◌, ◌*◌, ◌≤◌, ◌++◌, length, take, drop};
ghost use Rattle.delay_file.specs.Kinds.{kind_byte};
ghost use Rattle.plan_file.specs.PlanReading.{laid_out};
ghost use Rattle.plan_file.specs.PlanRecords.{plan_length, word_count, word_record};

use delay_file::fields::all_zero;
use delay_file::layout::{Kind, RECORD_BYTES};

// A word has the domains of this many registers.
pub const WORD_REGISTERS: usize = 64;

// How many words of domains so many registers take.
pub(crate) fn word_count(registers: u32) -> usize
    ensures { result ≡ word_count registers }
{
    (registers as usize).div_ceil(WORD_REGISTERS)
}

// How many bytes a plan file of so many registers has.
pub(crate) fn plan_length(registers: u32) -> usize
    ensures { result ≡ plan_length registers }
{
    (1 + word_count(registers)) * RECORD_BYTES
}

// Whether a record is of a kind and has this byte 1, and all bytes that its fields leave are zero.
pub(crate) fn is_laid_out(record: &[u8], kind: Kind, second: u8, end: usize) -> bool
    requires { end ≤ 32 }
    ensures { result ≡ laid_out (kind_byte kind) second end «record».now }
{
    match record {
        [first, ones, 0, 0, ..] => {
            *first == kind.byte()
                && *ones == second
                && record.len() == RECORD_BYTES
                && all_zero(&record[end..])
        }
        _ => false,
    }
}

// A word of domains, with the count of ones in it.
pub(crate) fn word_bytes(first: u32, word: u64) -> [u8; RECORD_BYTES]
    ensures { result ≡ word_record first word }
{
    let mut record = [0; RECORD_BYTES];
    record[0] = Kind::Word.byte();
    record[1] = word.count_ones() as u8;
    record[4..8].copy_from_slice(&first.to_be_bytes());
    record[8..16].copy_from_slice(&word.to_be_bytes());
    record
}

// Puts a record into its place. Sessions have their own: shared, it would be public and require the room, and no public
// function here requires anything.
pub(crate) fn put_record(out: &mut [u8], record: usize, bytes: &[u8; RECORD_BYTES])
    requires { «record» * 32 + 32 ≤ length out.old }
    ensures { out.new ≡ take («record» * 32) out.old ++ (bytes.now ++ drop («record» * 32 + 32) out.old) }
{
    let at = record * RECORD_BYTES;
    out[at..at + RECORD_BYTES].copy_from_slice(bytes);
}
