ghost use Rattle.std.specs.Prelude.{◌≡◌, ℕ, IfOk};
ghost use Rattle.delay_file.specs.Records.{delay, pair_bytes, reading, register, written};

use crate::layout::{Kind, RECORD_BYTES};
use crate::names::is_lawful_name;
use timing::pair::Pair;
use timing::refusal::Refusal;

// The record of a pair, lawful or not: it reads back as the same pair.
pub fn encode_pair(pair: Pair) -> [u8; RECORD_BYTES]
    ensures bytes { result ≡ pair_bytes pair }
    ensures reads_back { (k : ℕ) → reading k result ≡ delay pair }
{
    let mut record = [0; RECORD_BYTES];
    record[0] = Kind::Pair.byte();
    record[4..8].copy_from_slice(&pair.launch.to_be_bytes());
    record[8..12].copy_from_slice(&pair.capture.to_be_bytes());
    record[12..16].copy_from_slice(&pair.min.to_be_bytes());
    record[16..20].copy_from_slice(&pair.max.to_be_bytes());
    record
}

// The record of a register, which reads back as the same number and name. A name that no record may have is refused.
pub fn encode_register(number: u32, name: &[u8]) -> Result<[u8; RECORD_BYTES], Refusal>
    ensures bytes { result ≡ written number name.now }
    ensures reads_back { IfOk result (λ bytes. (k : ℕ) → reading k bytes ≡ register number name.now) }
{
    if !is_lawful_name(name) {
        return Err(Refusal::MalformedRecord);
    }
    let mut record = [0; RECORD_BYTES];
    record[0] = Kind::Register.byte();
    record[4..8].copy_from_slice(&number.to_be_bytes());
    record[8..8 + name.len()].copy_from_slice(name);
    Ok(record)
}
