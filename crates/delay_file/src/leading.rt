// The register records at the start of a file.
ghost use Rattle.std.specs.Prelude.{◌<◌};
ghost use Rattle.delay_file.specs.Files.{JudgedRegister, JudgedRun, record_count};

use crate::fault::Fault;
use crate::layout::{Kind, RECORD_BYTES, record_bytes};
use crate::reading::{Record, decode};
use timing::refusal::Refusal;

// Whether a record at the start of a file is the register of that number. Another kind of record ends the registers;
// one of the register kind that is not lawful or has another number is at fault.
fn is_register(bytes: &[u8], record: usize) -> Result<bool, Fault>
    requires { «record» < record_count bytes.now }
    ensures { JudgedRegister bytes.now «record» result }
{
    let part = record_bytes(bytes, record);
    if part[0] != Kind::Register.byte() {
        return Ok(false);
    }
    match decode(part, record)? {
        Record::Register { number, .. } if number as usize == record => Ok(true),
        _ => Err(Fault::at(Refusal::MalformedRecord, record)),
    }
}

// How many register records a file starts with.
pub(crate) fn leading_registers(bytes: &[u8]) -> Result<usize, Fault>
    ensures { JudgedRun bytes.now result }
{
    let count = bytes.len() / RECORD_BYTES;
    // Any record can end this with a fault, so a search by a chain would be no plainer.
    for record in 0..count {
        if !is_register(bytes, record)? {
            return Ok(record);
        }
    }
    Ok(count)
}
