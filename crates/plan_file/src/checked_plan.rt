ghost use Rattle.std.specs.Prelude.{◌≤◌, length};
ghost use Rattle.timing.specs.Bounds.{Offset, Period, RegisterCount};

use crate::draft::Draft;
use crate::head::Head;
use crate::plan_reader::PlanNumbers;
use crate::plan_records::{plan_length, put_record, word_bytes, word_count};
use timing::refusal::Refusal;

// A plan that was found legal: the draft that it was, and how many registers it is for. Its fields are private and only
// `check` makes one, so there is no other way to have one.
#[derive(Drop)]
pub struct CheckedPlan<'d> {
    draft: Draft<'d>,
    registers: u32,
    pub ghost period_within: { Period draft.period },
    pub ghost offset_within: { Offset draft.offset },
    pub ghost registers_within: { RegisterCount registers },
    pub ghost domains_long: { registers ≤ length draft.domains.now },
}

impl<'d> CheckedPlan<'d> {
    ghost use Rattle.std.specs.Prelude.{◌≡◌};
    ghost use Rattle.plan_file.specs.CheckedPlan.{BitsOfPlan, OnesOfPlan, PlanReadsBack, WrotePlan, file_length, plan_head};

    // Makes a draft a plan. This is for `check` alone, once it has judged the draft.
    pub(crate) fn new(draft: Draft<'d>, registers: u32) -> CheckedPlan<'d>
        requires period { Period draft.period }
        requires offset { Offset draft.offset }
        requires registers { RegisterCount registers }
        requires domains { registers ≤ length draft.domains.now }
        ensures draft { result.draft ≡ draft.entry }
        ensures registers { result.registers ≡ registers }
    {
        CheckedPlan { draft, registers }
    }

    // How many bytes the plan takes in a file.
    pub fn file_length(&self) -> usize
        ensures { result ≡ file_length self.now }
    {
        plan_length(self.registers)
    }

    // Writes the plan as a file: a head, and a record for each 64 registers. What lies behind it stays as it was. Memory
    // that is too short is refused with 9, and stays whole. The file reads back as the same plan.
    pub fn write(&self, out: &mut [u8]) -> Result<usize, Refusal>
        ensures wrote { WrotePlan self.now out.old out.new result }
        ensures reads_back { PlanReadsBack self.now out.new result }
        ensures bits { BitsOfPlan self.now }
        ensures ones { OnesOfPlan self.now }
    {
        let length = self.file_length();
        if out.len() < length {
            return Err(Refusal::MemoryTooShort);
        }
        put_record(out, 0, &self.head().bytes());
        // Each word goes to its own place in the lent memory, which `put_record` says; chunks of the memory would say it no plainer.
        for word in 0..word_count(self.registers) {
            let first = 64 * word as u32;
            let late = self.draft.word(self.registers, first);
            put_record(out, 1 + word, &word_bytes(first, late));
        }
        Ok(length)
    }

    // The head of the plan's file.
    fn head(&self) -> Head
        ensures { result ≡ plan_head self.now }
    {
        Head {
            numbers: PlanNumbers {
                period: self.draft.period,
                offset: self.draft.offset,
                registers: self.registers,
            },
            late: self.draft.late_count(self.registers),
        }
    }
}
