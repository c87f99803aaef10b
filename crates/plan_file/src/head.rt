// The head of a plan file, read and written.
ghost use Rattle.std.specs.Prelude.{◌≡◌, if◌then◌else◌, Some, None};
ghost use Rattle.plan_file.specs.PlanRead.{head_of};
ghost use Rattle.plan_file.specs.PlanReading.{head_good};
ghost use Rattle.plan_file.specs.PlanRecords.{head_record};

use crate::plan_reader::PlanNumbers;
use crate::plan_records::is_laid_out;
use delay_file::fields::number_at;
use delay_file::layout::{Kind, RECORD_BYTES};

// The numbers of a plan, and how many of its registers are late.
#[derive(Clone, Copy)]
pub(crate) struct Head {
    pub numbers: PlanNumbers,
    pub late: u32,
}

impl Head {
    // The head in a record, if it is one and its numbers keep their limits. Its late number is not judged here.
    pub(crate) fn read(record: &[u8]) -> Option<Head>
        ensures { result ≡ (if head_good «record».now then Some (head_of «record».now) else None) }
    {
        if !is_laid_out(record, Kind::Head, 0, 20) {
            return None;
        }
        let numbers = PlanNumbers {
            period: number_at(record, 4)?,
            offset: number_at(record, 8)?,
            registers: number_at(record, 12)?,
        };
        let late = number_at(record, 16)?;
        numbers.is_within_limits().then_some(Head { numbers, late })
    }

    // The record of this head.
    pub(crate) fn bytes(self) -> [u8; RECORD_BYTES]
        ensures { result ≡ head_record self.numbers.period self.numbers.offset self.numbers.registers self.late }
    {
        let mut record = [0; RECORD_BYTES];
        record[0] = Kind::Head.byte();
        record[4..8].copy_from_slice(&self.numbers.period.to_be_bytes());
        record[8..12].copy_from_slice(&self.numbers.offset.to_be_bytes());
        record[12..16].copy_from_slice(&self.numbers.registers.to_be_bytes());
        record[16..20].copy_from_slice(&self.late.to_be_bytes());
        record
    }
}
