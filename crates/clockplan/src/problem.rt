use crate::commands::{Outcome, Paths};
use delay_file::fault::Fault;
use std::fmt;
use std::fmt::Write;

// What is wrong with what a command was given, so that it cannot begin.
#[derive(Clone, Copy)]
pub enum Problem<'a> {
    // A delay file that does not open, or a plan file that does not read.
    File {
        path: &'a str,
        fault: Fault,
    },
    // A plan and a delay file that do not have the same number of registers.
    OtherCircuit {
        paths: Paths<'a>,
        planned: u32,
        registers: u32,
    },
    UnknownOption {
        word: &'a str,
        known: &'static str,
    },
    NoValue(Wanted),
    WrongValue {
        wanted: Wanted,
        value: &'a str,
    },
    NoSuchName {
        name: &'a str,
        file: &'a str,
    },
    NameRepeats {
        name: &'a str,
        file: &'a str,
    },
}

// What an option wants for a value.
#[derive(Clone, Copy)]
pub struct Wanted {
    pub option: &'static str,
    pub value: &'static str,
}

impl fmt::Display for Wanted {
    fn fmt<W: fmt::Write>(&self, f: &mut fmt::Formatter<W>) -> fmt::Result {
        write!(f, "{} wants {}", self.option, self.value)
    }
}

impl fmt::Display for Problem<'_> {
    fn fmt<W: fmt::Write>(&self, f: &mut fmt::Formatter<W>) -> fmt::Result {
        match self {
            Problem::File { path, fault } => write!(f, "{path}: {fault}"),
            Problem::OtherCircuit {
                paths,
                planned,
                registers,
            } => write!(
                f,
                "{} is a plan of {planned} registers, and {} has {registers}",
                paths.plan, paths.file
            ),
            Problem::UnknownOption { word, known } => {
                write!(f, "`{word}` is no option here; there is {known}")
            }
            Problem::NoValue(wanted) => write!(f, "{wanted}, and nothing follows it"),
            Problem::WrongValue { wanted, value } => write!(f, "{wanted}, not {value}"),
            Problem::NoSuchName { name, file } => {
                write!(f, "there is no register {name} in {file}")
            }
            Problem::NameRepeats { name, file } => {
                write!(f, "{file} has several registers {name}")
            }
        }
    }
}

// Says what is wrong with what a command was given, which ends it.
pub(crate) fn tell_problem(problem: Problem<'_>, out: &mut String) -> anyhow::Result<Outcome> {
    writeln!(out, "{problem}")?;
    Ok(Outcome::Refused)
}
