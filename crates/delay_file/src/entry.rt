ghost use Rattle.std.specs.Prelude.{◌≡◌, length};
ghost use Rattle.delay_file.specs.Files.{entry_of, located};
ghost use Rattle.delay_file.specs.Records.{reading, seen_pair};

use crate::fault::Fault;
use crate::reading::{Record, decode};
use timing::pair::Pair;
use timing::refusal::Refusal;

// What a record past the registers is worth among so many registers.
#[inline]
pub(crate) fn entry_in(bytes: &[u8], record: usize, registers: u32) -> Result<Pair, Fault>
    requires { length bytes.now ≡ 32 }
    ensures { seen_pair result ≡ located «record» (entry_of registers (reading «record» bytes.now)) }
{
    match decode(bytes, record)? {
        Record::Register { .. } => Err(Fault::at(Refusal::MalformedRecord, record)),
        Record::Delay(pair) => pair
            .validate(registers)
            .map_err(|refusal| Fault::at(refusal, record)),
    }
}
