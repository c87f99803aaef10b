use std::error::Error;
use std::fmt;

// What is wrong with a line of a script.
#[derive(Clone, Copy, Debug)]
pub enum Mistake<'t> {
    UnknownCall(&'t str),
    // The form that a call of this kind has.
    Form(&'static str),
    Number(&'t str),
    Delay(&'t str),
    NotOpen,
}

impl fmt::Display for Mistake<'_> {
    fn fmt<W: fmt::Write>(&self, f: &mut fmt::Formatter<W>) -> fmt::Result {
        match self {
            Mistake::UnknownCall(word) => write!(f, "`{word}` is no call of a session"),
            Mistake::Form(form) => write!(f, "wanted: {form}"),
            Mistake::Number(word) => write!(f, "`{word}` is no whole number that fits here"),
            Mistake::Delay(word) => write!(
                f,
                "`{word}` is no delay: whole picoseconds, or - where it is missing"
            ),
            Mistake::NotOpen => write!(f, "no session is open: wanted first: open REGISTERS"),
        }
    }
}

impl Error for Mistake<'_> {}
