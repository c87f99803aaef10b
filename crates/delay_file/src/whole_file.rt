ghost use Rattle.std.specs.Prelude.{◌≡◌, ◌≤◌, true, ◌++◌, map, length, IfOk, MatchResult, OnOk};
ghost use Rattle.delay_file.specs.Files.{circuit_meaning, file_bytes, joined, opened, opening, register_records, written_as, writing};
ghost use Rattle.delay_file.specs.Records.{ReadsBack, lawful_name, pair_bytes, register_bytes};
ghost use Rattle.delay_file.specs.Writes.{Refuses, RefusesName, RefusesNames};
ghost use Rattle.std.specs.List.{prefix_len, AllByRecursion};

use crate::encoding::{encode_pair, encode_register};
use crate::fault::Fault;
use crate::write_error::WriteError;
use std::alloc::{AllocError, Global};
use timing::limits::MAX_REGISTERS;
use timing::pair::Pair;
use timing::refusal::Refusal;

// The bytes of a whole file: its registers by their names, then its pairs as given. It opens as these registers and
// these pairs. Refused where there are too few or too many names, or at the first that no register may have.
pub fn encode_file(heap: Global, names: &[&[u8]], pairs: &[Pair]) -> Result<Vec<u8>, WriteError>
    ensures answer { MatchResult result (λ v. written_as v.items ≡ writing (map (λ x. x.now) names.now) pairs.now) (λ e. Refuses (map (λ x. x.now) names.now) pairs.now e) }
    ensures opens { IfOk result (λ v. opening v.items ≡ opened (circuit_meaning (map (λ x. x.now) names.now) pairs.now)) }
{
    // By `contains` of a range the goals behind it did not prove: it tells of the length by comparisons and not by numbers.
    if names.len() < 1 || names.len() > MAX_REGISTERS as usize {
        return Err(WriteError::Refused(Fault::of_file(Refusal::RegisterCount)));
    }
    let mut file = Vec::new(heap);
    push_registers(&mut file, names)?;
    push_pairs(&mut file, pairs)?;
    Ok(file)
}

// Puts the records of all registers into a file.
fn push_registers(file: &mut Vec<u8>, names: &[&[u8]]) -> Result<(), WriteError>
    requires { length names.now ≤ 4096 }
    ensures { MatchResult result (λ _. (prefix_len lawful_name (map (λ x. x.now) names.now) ≡ length names.now) × (file.new.items ≡ file.old.items ++ joined (register_records 0 (map (λ x. x.now) names.now)))) (RefusesNames (map (λ x. x.now) names.now)) }
{
    for (number, name) in names.iter().enumerate() {
        push_register(file, number as u32, name)?;
    }
    Ok(())
}

fn push_register(file: &mut Vec<u8>, number: u32, name: &[u8]) -> Result<(), WriteError>
    ensures { MatchResult result (λ _. (lawful_name name.now ≡ true) × (file.new.items ≡ file.old.items ++ register_bytes number name.now)) (RefusesName number name.now) }
{
    let record = encode_register(number, name).map_err(|refusal| Fault::at(
        refusal,
        number as usize,
    ))?;
    file.extend_from_slice(&record)?;
    Ok(())
}

// Puts the records of all pairs into a file.
fn push_pairs(file: &mut Vec<u8>, pairs: &[Pair]) -> Result<(), AllocError>
    ensures items { OnOk result (file.new.items ≡ file.old.items ++ joined (map pair_bytes pairs.now)) }
    ensures read { OnOk result (AllByRecursion ReadsBack pairs.now) }
{
    for pair in pairs {
        file.extend_from_slice(&encode_pair(*pair))?;
    }
    Ok(())
}
