use std::error::Error;
use std::fmt;

// What is wrong with a line.
#[derive(Clone, Copy, Debug)]
pub enum Problem<'t> {
    UnknownWord(&'t str),
    RegisterForm,
    PairForm,
    Name(&'t str),
    NameAgain(&'t str),
    NoSuchName(&'t str),
    Delay(&'t str),
    TooManyRegisters,
}

impl fmt::Display for Problem<'_> {
    fn fmt<W: fmt::Write>(&self, f: &mut fmt::Formatter<W>) -> fmt::Result {
        match self {
            Problem::UnknownWord(word) => write!(f, "`{word}` is neither register nor pair"),
            Problem::RegisterForm => write!(f, "wanted: register NAME"),
            Problem::PairForm => write!(f, "wanted: pair LAUNCH CAPTURE MIN MAX"),
            Problem::Name(name) => write!(f, "`{name}` is no name: 1 to 24 characters from ! to ~"),
            Problem::NameAgain(name) => write!(f, "there is a register {name} already"),
            Problem::NoSuchName(name) => write!(f, "there is no register {name}"),
            Problem::Delay(word) => write!(
                f,
                "`{word}` is no delay: whole picoseconds, or - where it is missing"
            ),
            Problem::TooManyRegisters => write!(f, "a circuit has at most 4,096 registers"),
        }
    }
}

impl Error for Problem<'_> {}
