ghost use Rattle.plan_file.specs.Draft.{draft_slack_answer};
ghost use Rattle.timing.specs.Outcomes.{told};
ghost use Rattle.std.specs.Prelude.{◌≡◌};

use crate::draft::Draft;
use timing::limits::{check_offset, check_period};
use timing::readable::first_faulty;
use timing::refusal::Refusal;
use timing::source::DelaySource;

// What the entry at a place has to spare under a draft: the smaller of its setup and its hold slack.
pub fn slack_at<S: DelaySource>(
    source: &S,
    draft: &Draft<'_>,
    place: usize,
) -> Result<i128, Refusal>
    ensures { told result ≡ draft_slack_answer (S.meaning source.now) draft.now place }
{
    check_period(draft.period)?;
    check_offset(draft.offset)?;
    if let Some(place) = first_faulty(source) {
        return Err(Refusal::FaultyEntry { place });
    }
    if draft.domains.len() < source.register_count() as usize {
        return Err(Refusal::MemoryTooShort);
    }
    let pair = source.entry(place).map_err(|_| Refusal::NoSuchEntry)?;
    Ok(draft.slack(pair))
}
