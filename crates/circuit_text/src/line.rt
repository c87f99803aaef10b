ghost use Rattle.circuit_text.specs.Words.{DelayRead};

use crate::mistake::Problem;
use timing::limits::MISSING_DELAY;

// What a line of a circuit says.
#[derive(Clone, Copy)]
pub enum Line<'t> {
    Register(&'t str),
    Pair(PairLine<'t>),
}

// A pair by the names of its registers.
#[derive(Clone, Copy)]
pub struct PairLine<'t> {
    pub launch: &'t str,
    pub capture: &'t str,
    pub min: i32,
    pub max: i32,
}

// A delay as it is written: `-` where it is missing, else a whole number. The number that marks a missing delay in a
// file cannot be written as a number here, so a delay is missing only where the text says so.
pub fn read_delay(word: &str) -> Option<i32>
    ensures { DelayRead word.now result }
{
    if word == "-" {
        return Some(MISSING_DELAY);
    }
    word.parse().ok().filter(|&delay| delay != MISSING_DELAY)
}

// The most words that a line may have. One word more tells that it has too many, so no further ones are looked at.
pub(crate) const MOST_WORDS: usize = 5;

// What a line says by its words. The first decides; a line without words says nothing.
pub(crate) fn read_line<'t>(words: &[&'t str]) -> Result<Option<Line<'t>>, Problem<'t>> {
    match *words {
        [] => Ok(None),
        ["register", name] => Ok(Some(Line::Register(name))),
        ["register", ..] => Err(Problem::RegisterForm),
        ["pair", launch, capture, min, max] => Ok(Some(Line::Pair(PairLine {
            launch,
            capture,
            min: delay(min)?,
            max: delay(max)?,
        }))),
        ["pair", ..] => Err(Problem::PairForm),
        [first, ..] => Err(Problem::UnknownWord(first)),
    }
}

fn delay<'t>(word: &'t str) -> Result<i32, Problem<'t>> {
    read_delay(word).ok_or(Problem::Delay(word))
}
