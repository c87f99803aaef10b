// What is said of a draft that was refused: the numbers and the names that show why.
ghost use Rattle.std.specs.Prelude.{◌≢◌};

use crate::planned::Planned;
use crate::show::{record_of, show_faulty};
use crate::shown::{ShownPair, ShownRegister};
use delay_file::fault::Fault;
use delay_file::view::FileView;
use std::fmt;
use std::fmt::Write;
use timing::domain::Domain;
use timing::refusal::{Part, Refusal};

// Why the check refused a draft. The refusal's number and words come first, and then what shows it.
pub(crate) fn tell_refused(
    planned: &Planned<'_>,
    ceiling: u32,
    refusal: Refusal,
    out: &mut String,
) -> anyhow::Result<()> {
    let fault = Fault::of_file(refusal);
    match refusal {
        Refusal::FaultyEntry { place } => tell_faulty(&planned.view, place, out),
        Refusal::DraftNotLegal {
            part: Part::Ceiling,
            excess,
            ..
        } => {
            let offset = planned.draft.offset;
            writeln!(
                out,
                "{fault} by {excess} ps (offset {offset}, ceiling {ceiling})"
            )?;
            Ok(())
        }
        Refusal::DraftNotLegal {
            part: Part::Pin,
            place,
            ..
        } => {
            write!(out, "{fault}")?;
            tell_pin(planned, place, out)
        }
        Refusal::DraftNotLegal { place, excess, .. } => {
            write!(out, "{fault} by {excess} ps")?;
            tell_entry(planned, place, out)
        }
        _ => {
            writeln!(out, "{fault}")?;
            Ok(())
        }
    }
}

// That a source has a faulty entry, and what is wrong with that.
pub(crate) fn tell_faulty(
    view: &FileView<'_>,
    place: usize,
    out: &mut String,
) -> anyhow::Result<()> {
    let fault = Fault::of_file(Refusal::FaultyEntry { place });
    writeln!(out, "{fault} at place {place}")?;
    if let Err(fault) = view.pair(place) {
        show_faulty(view, record_of(view, place), fault, out)?;
    }
    Ok(())
}

// A register that is not in its pinned domain is in the other one.
fn tell_pin(planned: &Planned<'_>, place: usize, out: &mut String) -> anyhow::Result<()> {
    let register = u32::try_from(place).unwrap_or(u32::MAX);
    let domain = planned.draft.domain(register);
    let pinned = other(domain);
    let register = ShownRegister::named(&planned.view, register);
    writeln!(out, " ({register} is {domain}, pinned {pinned})")?;
    Ok(())
}

fn other(domain: Domain) -> Domain
    ensures { result ≢ domain }
{
    match domain {
        Domain::Early => Domain::Late,
        Domain::Late => Domain::Early,
    }
}

// An entry with a broken limit: its record and pair, and when its registers are clocked.
fn tell_entry(planned: &Planned<'_>, place: usize, out: &mut String) -> anyhow::Result<()> {
    let record = record_of(&planned.view, place);
    write!(out, " at record {record}")?;
    if let Ok(pair) = planned.view.pair(place) {
        let launch = ShownClock::of(planned, pair.launch);
        let capture = ShownClock::of(planned, pair.capture);
        let period = planned.draft.period;
        let pair = ShownPair::named(&planned.view, pair);
        write!(out, ": {pair} ({launch}, {capture}, period {period})")?;
    }
    writeln!(out)?;
    Ok(())
}

// A register, its domain and when it is clocked.
#[derive(Clone, Copy)]
pub struct ShownClock<'a> {
    register: ShownRegister<'a>,
    domain: Domain,
    time: i64,
}

impl<'a> ShownClock<'a> {
    fn of(planned: &Planned<'a>, register: u32) -> ShownClock<'a> {
        ShownClock {
            register: ShownRegister::named(&planned.view, register),
            domain: planned.draft.domain(register),
            time: planned.draft.clock_time(register),
        }
    }
}

impl fmt::Display for ShownClock<'_> {
    fn fmt<W: fmt::Write>(&self, f: &mut fmt::Formatter<W>) -> fmt::Result {
        write!(f, "{} {} at {}", self.register, self.domain, self.time)
    }
}
