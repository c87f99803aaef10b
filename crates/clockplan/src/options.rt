// The options of the commands. They come in twos: the word of the option, and its value.
ghost use Rattle.std.specs.Prelude.{◌≡◌, ℕ, ◌<◌, ◌↔◌, List, ◌++◌, IfOk, Some, IsTrue, MatchOption, ◌≢◌, slice_set};
ghost use Rattle.clockplan.specs.Pins.{OnlyNamed, Unnamed, pin_end};
ghost use Rattle.timing.specs.Domains.{domain_byte};
ghost use Rattle.delay_file.specs.Files.{register_name, view_registers};
ghost use Rattle.timing.specs.declared.domain.Domain.{Domain};

use crate::problem::{Problem, Wanted};
use delay_file::view::FileView;
use std::str::FromStr;
use timing::domain::Domain;
use timing::limits::MAX_OFFSET;

const CEILING: Wanted = Wanted {
    option: "--ceiling",
    value: "whole picoseconds",
};

const PIN: Wanted = Wanted {
    option: "--pin",
    value: "NAME=early or NAME=late",
};

const COUNT: Wanted = Wanted {
    option: "--count",
    value: "a whole number",
};

// How many entries `slack` lists where it is not told.
const USUAL_COUNT: usize = 10;

// What one option of `check` asks for.
#[derive(Clone, Copy)]
enum CheckOption<'w> {
    Ceiling(u32),
    Pinned(Pin<'w>),
}

// A register by its name, and the clock that it must have.
#[derive(Clone, Copy)]
struct Pin<'w> {
    name: &'w str,
    domain: Domain,
}

// Reads the options of `check`: sets the pins of the registers that are named, and answers the ceiling. Of two options
// that speak of the same thing the later one counts.
pub(crate) fn read_check_options<'w>(
    view: &FileView<'_>,
    file: &'w str,
    words: &'w [&'w str],
    pins: &mut [u8],
) -> Result<u32, Problem<'w>> {
    let mut ceiling = MAX_OFFSET;
    for option in words.chunks(2) {
        match read_check_option(option)? {
            CheckOption::Ceiling(offset) => ceiling = offset,
            CheckOption::Pinned(pin) => {
                let register = register_named(view, file, pin.name)?;
                set_pin(pins, register, pin.domain);
            }
        }
    }
    Ok(ceiling)
}

// Reads the options of `slack`: how many entries are to be listed.
pub(crate) fn read_count<'w>(words: &'w [&'w str]) -> Result<usize, Problem<'w>> {
    let mut count = USUAL_COUNT;
    for option in words.chunks(2) {
        count = match *option {
            ["--count", ref value @ ..] => number_in(COUNT, value)?,
            _ => return Err(unknown(option, "--count N")),
        };
    }
    Ok(count)
}

fn read_check_option<'w>(option: &'w [&'w str]) -> Result<CheckOption<'w>, Problem<'w>> {
    match *option {
        // Any ceiling that fits 32 bits is read; whether it keeps its limit is for the check to say.
        ["--ceiling", ref value @ ..] => Ok(CheckOption::Ceiling(number_in(CEILING, value)?)),
        ["--pin", ref value @ ..] => Ok(CheckOption::Pinned(pin_in(value)?)),
        _ => Err(unknown(
            option,
            "--ceiling PS, and --pin NAME=early or --pin NAME=late",
        )),
    }
}

fn unknown<'w>(option: &[&'w str], known: &'static str) -> Problem<'w> {
    Problem::UnknownOption {
        word: option.first().copied().unwrap_or_default(),
        known,
    }
}

// The value of an option, if one follows it.
fn value_in<'w>(wanted: Wanted, words: &[&'w str]) -> Result<&'w str, Problem<'w>> {
    words.first().copied().ok_or(Problem::NoValue(wanted))
}

fn number_in<'w, N: FromStr>(wanted: Wanted, words: &[&'w str]) -> Result<N, Problem<'w>>
where
    N::Err: Drop,
{
    let value = value_in(wanted, words)?;
    value
        .parse()
        .map_err(|_| Problem::WrongValue { wanted, value })
}

fn pin_in<'w>(words: &[&'w str]) -> Result<Pin<'w>, Problem<'w>> {
    let value = value_in(PIN, words)?;
    asked_pin(value).ok_or(Problem::WrongValue { wanted: PIN, value })
}

// The pin that a text asks for. Its name may hold `=` itself, so only the end of the text is taken off. (That it ends
// so is what is promised, and what `strip_suffix` says; of a text split at its last `=` it would have to be shown.)
fn asked_pin<'w>(text: &'w str) -> Option<Pin<'w>>
    ensures { MatchOption result ((name : List ℕ) (d : Domain) → text.now ≢ name ++ pin_end d) (λ p. text.now ≡ p.name.now ++ pin_end p.domain) }
{
    if let Some(name) = text.strip_suffix("=early") {
        return Some(Pin {
            name,
            domain: Domain::Early,
        });
    }
    if let Some(name) = text.strip_suffix("=late") {
        return Some(Pin {
            name,
            domain: Domain::Late,
        });
    }
    None
}

// The register of this name. Names may repeat in a delay file, and then a name says nothing.
fn register_named<'w>(view: &FileView<'_>, file: &'w str, name: &'w str) -> Result<u32, Problem<'w>>
    ensures { IfOk result (λ k. (k < view_registers view.now) × OnlyNamed view.now name.now k) }
{
    let Some(first) = first_named(view, 0, name) else {
        return Err(Problem::NoSuchName { name, file });
    };
    match first_named(view, first + 1, name) {
        Some(_) => Err(Problem::NameRepeats { name, file }),
        None => Ok(first),
    }
}

// The first register of this name, from a number on.
fn first_named(view: &FileView<'_>, from: u32, name: &str) -> Option<u32>
    ensures { MatchOption result (Unnamed view.now name.now from (view_registers view.now)) (λ k. (k < view_registers view.now) × (register_name view.now k ≡ Some name.now) × Unnamed view.now name.now from k) }
{
    (from..view.registers()).find(|number| is_named(view, *number, name))
}

fn is_named(view: &FileView<'_>, number: u32, name: &str) -> bool
    ensures { IsTrue result ↔ (register_name view.now number ≡ Some name.now) }
{
    view.name(number) == Some(name.as_bytes())
}

// Pins a register, if there is memory for its pin.
fn set_pin(pins: &mut [u8], register: u32, domain: Domain)
    ensures { pins.new ≡ slice_set pins.old register (domain_byte domain) }
{
    let at = register as usize;
    if at < pins.len() {
        pins[at] = domain.byte();
    }
}
