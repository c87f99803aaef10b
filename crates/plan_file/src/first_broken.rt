// The first limit that a draft breaks: the ceiling, then the pins, then the entries.
ghost use Rattle.std.specs.Prelude.{◌≡◌, negsuc, ◌≤ℤ◌, not};
ghost use Rattle.plan_file.specs.Draft.{draft_time, draft_verdict};
ghost use Rattle.plan_file.specs.Drafts.{entries_from};
ghost use Rattle.plan_file.specs.Found.{found_as, is_met};
ghost use Rattle.std.specs.List.{find, range_with_len};
ghost use Rattle.timing.specs.Bounds.{Offset, greatest_delay, least_delay};
ghost use Rattle.timing.specs.Slacks.{excess, limit_slack};
ghost use Rattle.timing.specs.declared.refusal.Refusal.TheVariants.{DraftNotLegal};

use crate::draft::Draft;
use timing::domain::{Domain, FREE};
use timing::limit::Limit;
use timing::pair::Pair;
use timing::refusal::{Part, Refusal};
use timing::source::DelaySource;

// A part of a draft that is broken, where, and by how much.
#[derive(Clone, Copy)]
pub(crate) struct Broken {
    pub part: Part,
    pub place: usize,
    pub excess: u32,
}

impl From<Broken> for Refusal {
    ghost from_gives = { λ b f. f ≡ DraftNotLegal b.part b.place b.excess };

    fn from(broken: Broken) -> Refusal {
        Refusal::DraftNotLegal {
            part: broken.part,
            place: broken.place,
            excess: broken.excess,
        }
    }
}

// By how much a limit of a lawful pair is broken under a draft; 0 where it is kept. (That the offset keeps its limit was seen
// before the search; a draft may have any, so its type cannot say it.)
fn limit_excess(limit: Limit, pair: Pair, draft: &Draft<'_>) -> u32
    requires min { least_delay ≤ℤ pair.min }
    requires max { pair.max ≤ℤ greatest_delay }
    requires offset { Offset draft.now.offset }
    ensures { result ≡ excess (limit_slack limit pair draft.now.period (draft_time draft.now pair.launch) (draft_time draft.now pair.capture)) }
{
    let launch = draft.clock_time(pair.launch);
    let capture = draft.clock_time(pair.capture);
    excess_of(limit.slack(pair, draft.period, launch, capture))
}

// By how much a limit with this slack is broken. No limit of a lawful pair is broken by more than 2,000,000.
fn excess_of(slack: i128) -> u32
    requires { negsuc 1999999 ≤ℤ slack }
    ensures { result ≡ excess slack }
{
    u32::try_from(-slack).unwrap_or(0)
}

// The first broken limit of an entry, by place, setup before hold. (Of the offset's limit, as above.)
fn broken_limit<S: DelaySource>(source: &S, draft: &Draft<'_>) -> Option<Broken>
    requires { Offset draft.now.offset }
    ensures { found_as result ≡ entries_from draft.now.period (draft_time draft.now) 0 (S.meaning source.now).entries }
{
    let mut found = None;
    // Labelled, and left from inside at the first broken limit: the order of the search is its promise, and is to be seen.
    'entries: for place in 0..source.entry_count() {
        let Ok(pair) = source.entry(place) else {
            continue 'entries;
        };
        for limit in [Limit::Setup, Limit::Hold] {
            let excess = limit_excess(limit, pair, draft);
            if excess > 0 {
                found = Some(Broken {
                    part: limit.part(),
                    place,
                    excess,
                });
                break 'entries;
            }
        }
    }
    found
}

// Whether a register is in the domain that its pin byte asks for. A register past the pins is free.
fn is_pin_met(pins: &[u8], draft: &Draft<'_>, register: u32) -> bool
    ensures { result ≡ is_met pins.now draft.now.domains.now register }
{
    let pin = pins.get(register as usize).copied().unwrap_or(FREE);
    match draft.domain(register) {
        Domain::Early => pin != Domain::Late.byte(),
        Domain::Late => pin != Domain::Early.byte(),
    }
}

// The first register that is not in its pinned domain.
fn broken_pin(pins: &[u8], draft: &Draft<'_>, registers: u32) -> Option<u32>
    ensures { result ≡ find (λ r. not (is_met pins.now draft.now.domains.now r)) (range_with_len 0 registers) }
{
    (0..registers).find(|&register| !is_pin_met(pins, draft, register))
}

// The first limit of all that a draft breaks. (Of the offset's limit, as above; of source, pins and ceiling, as in `check`.)
pub(crate) fn first_broken<S: DelaySource>(
    source: &S,
    pins: &[u8],
    ceiling: u32,
    draft: &Draft<'_>,
) -> Option<Broken>
    requires { Offset draft.now.offset }
    ensures { found_as result ≡ draft_verdict (S.meaning source.now) pins.now ceiling draft.now }
{
    if draft.offset > ceiling {
        return Some(Broken {
            part: Part::Ceiling,
            place: 0,
            excess: draft.offset - ceiling,
        });
    }
    match broken_pin(pins, draft, source.register_count()) {
        Some(register) => Some(Broken {
            part: Part::Pin,
            place: register as usize,
            excess: 0,
        }),
        None => broken_limit(source, draft),
    }
}
