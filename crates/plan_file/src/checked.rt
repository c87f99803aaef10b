ghost use Rattle.plan_file.specs.Checks.{IsLegal, IsReady, IsWritable, Keeps, NamesBroken, checked_as};
ghost use Rattle.plan_file.specs.Draft.{draft_answer};
ghost use Rattle.std.specs.Prelude.{◌≡◌, ◌↔◌, IfOk, IsOk};
ghost use Rattle.timing.specs.Outcomes.{told};

pub use crate::checked_plan::CheckedPlan;
use crate::draft::Draft;
use crate::first_broken::first_broken;
use timing::limits::{check_offset, check_period};
use timing::readable::check_readable;
use timing::refusal::Refusal;
use timing::source::DelaySource;

// A draft that was refused, handed back to its owner as it was.
#[derive(Drop)]
pub struct RefusedDraft<'d> {
    pub refusal: Refusal,
    pub draft: Draft<'d>,
}

// Makes a draft a checked plan, if it is legal for a source, pins (a byte for each register) and a ceiling. A draft that
// is refused is only read; one that is accepted is used up. (The source, the pins and the ceiling are in three hands, a file or
// a session among them, so they come one by one.)
pub fn check<'d, S: DelaySource>(
    source: &S,
    pins: &[u8],
    ceiling: u32,
    draft: Draft<'d>,
) -> Result<CheckedPlan<'d>, RefusedDraft<'d>>
    ensures answer { checked_as result ≡ draft_answer (S.meaning source.now) pins.now ceiling draft.entry }

    // Where nothing stands in the way of a judgement.
    ensures legal { IsReady (S.meaning source.now) pins.now ceiling draft.entry → (IsOk result ↔ IsLegal (S.meaning source.now) pins.now ceiling draft.entry) }
    ensures first { IsReady (S.meaning source.now) pins.now ceiling draft.entry → NamesBroken (S.meaning source.now) pins.now ceiling draft.entry result }

    ensures writable { IfOk result IsWritable }
    ensures same { Keeps (S.meaning source.now).registers draft.entry result }
{
    match judge(source, pins, ceiling, &draft) {
        Ok(()) => Ok(CheckedPlan::new(draft, source.register_count())),
        Err(refusal) => Err(RefusedDraft { refusal, draft }),
    }
}

// Why a draft is refused, if it is. (Source, pins and ceiling come one by one, as above.)
fn judge<S: DelaySource>(
    source: &S,
    pins: &[u8],
    ceiling: u32,
    draft: &Draft<'_>,
) -> Result<(), Refusal>
    ensures { told result ≡ draft_answer (S.meaning source.now) pins.now ceiling draft.now }
{
    check_period(draft.period)?;
    check_offset(ceiling)?;
    check_offset(draft.offset)?;
    check_readable(source)?;
    let registers = source.register_count() as usize;
    if pins.len() < registers || draft.domains.len() < registers {
        return Err(Refusal::MemoryTooShort);
    }
    match first_broken(source, pins, ceiling, draft) {
        Some(broken) => Err(broken.into()),
        None => Ok(()),
    }
}
