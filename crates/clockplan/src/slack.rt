ghost use Rattle.clockplan.specs.Counts.{broken_count, is_broken};
ghost use Rattle.clockplan.specs.Verdicts.{is_granted};
ghost use Rattle.delay_file.specs.Files.{view_meaning};
ghost use Rattle.plan_file.specs.Draft.{draft_time};
ghost use Rattle.std.specs.Prelude.{◌≡◌, not, is_some, IfOk};
ghost use Rattle.timing.specs.Meaning.{entry_at};
ghost use Rattle.timing.specs.Outcomes.{first_faulty};

use crate::commands::{Outcome, Paths};
use crate::options::read_count;
use crate::planned::{Planned, with_planned};
use crate::problem::tell_problem;
use crate::refused::tell_faulty;
use crate::show::record_of;
use crate::shown::ShownPair;
use std::alloc::{AllocError, Global};
use std::fmt::Write;
use timing::readable::first_faulty;
use timing::source::DelaySource;

// What the entry at a place has to spare. The order is that of the list: the tightest first, and then by place.
#[derive(Clone, Copy, PartialEq, Eq, PartialOrd, Ord)]
struct Spare {
    slack: i128,
    place: usize,
}

// Lists the entries of a delay file that have the least to spare under a plan.
pub(crate) fn slack(
    rt: &HostRuntime,
    paths: Paths<'_>,
    options: &[&str],
) -> anyhow::Result<Outcome> {
    with_planned(rt, paths, |planned, out| match read_count(options) {
        Ok(count) => list_slacks(rt.alloc(), &planned, count, out),
        Err(problem) => tell_problem(problem, out),
    })
}

// Lists so many entries. It is granted exactly where no entry is faulty; a broken limit is no refusal.
fn list_slacks(
    heap: Global,
    planned: &Planned<'_>,
    count: usize,
    out: &mut String,
) -> anyhow::Result<Outcome>
    ensures { IfOk result (λ o. is_granted o ≡ not (is_some (first_faulty 0 (view_meaning planned.now.view).entries))) }
{
    if let Some(place) = first_faulty(&planned.view) {
        tell_faulty(&planned.view, place, out)?;
        return Ok(Outcome::Refused);
    }
    let spares = sorted_spares(heap, planned)?;
    for spare in spares.iter().take(count) {
        tell_spare(planned, *spare, out)?;
    }
    tell_total(&spares, broken_count(planned), out)?;
    Ok(Outcome::Granted)
}

// How many entries there are, how many of them are broken, and what the tightest has to spare.
fn tell_total(spares: &[Spare], broken: usize, out: &mut String) -> anyhow::Result<()> {
    write!(out, "entries {}", spares.len())?;
    if let Some(tightest) = spares.first() {
        write!(out, ", broken {broken}, tightest {}", tightest.slack)?;
    }
    writeln!(out)?;
    Ok(())
}

// What every entry has to spare, the tightest first.
fn sorted_spares(heap: Global, planned: &Planned<'_>) -> Result<Vec<Spare>, AllocError> {
    let mut spares: Vec<Spare> = (0..planned.view.entry_count())
        .filter_map(|place| spare_at(planned, place))
        .collect(heap)?;
    spares.sort()?;
    Ok(spares)
}

// What the entry at a place has to spare, if it can be read.
fn spare_at(planned: &Planned<'_>, place: usize) -> Option<Spare> {
    let pair = planned.view.entry(place).ok()?;
    Some(Spare {
        slack: planned.draft.slack(pair),
        place,
    })
}

// How many entries have a broken limit.
fn broken_count(planned: &Planned<'_>) -> usize
    ensures { result ≡ broken_count planned.now.draft.period (draft_time planned.now.draft) (view_meaning planned.now.view).entries }
{
    (0..planned.view.entry_count())
        .filter(|place| is_broken(planned, *place))
        .count()
}

// Whether the entry at a place has a broken limit. One that cannot be read has no limits.
fn is_broken(planned: &Planned<'_>, place: usize) -> bool
    ensures { result ≡ is_broken planned.now.draft.period (draft_time planned.now.draft) (entry_at (view_meaning planned.now.view) place) }
{
    match planned.view.entry(place) {
        Ok(pair) => planned.draft.slack(pair) < 0,
        Err(_) => false,
    }
}

// One entry: what it and each of its limits have to spare, and its pair.
fn tell_spare(planned: &Planned<'_>, spare: Spare, out: &mut String) -> anyhow::Result<()> {
    let Planned { view, draft, .. } = planned;
    let Ok(pair) = view.entry(spare.place) else {
        return Ok(());
    };
    let launch = draft.clock_time(pair.launch);
    let capture = draft.clock_time(pair.capture);
    let setup = pair.setup_slack(draft.period, launch, capture);
    let hold = pair.hold_slack(launch, capture);
    let slack = spare.slack;
    let record = record_of(view, spare.place);
    let pair = ShownPair::named(view, pair);
    writeln!(
        out,
        "slack {slack} (setup {setup}, hold {hold}): record {record}: {pair}"
    )?;
    Ok(())
}
