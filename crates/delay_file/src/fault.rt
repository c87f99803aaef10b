ghost use Rattle.std.specs.Prelude.{◌≡◌, Some, None};

use std::error::Error;
use std::fmt;
use timing::refusal::Refusal;

// Why a file was refused, and at which of its records, counted from 0 over the whole file. There is no record where
// the file as a whole is at fault.
#[derive(Clone, Copy, PartialEq, Eq, Debug)]
pub struct Fault {
    pub refusal: Refusal,
    pub record: Option<usize>,
}

impl Fault {
    // The file as a whole is at fault.
    pub fn of_file(refusal: Refusal) -> Fault
        ensures { result ≡ record { refusal = refusal; «record» = None } }
    {
        Fault {
            refusal,
            record: None,
        }
    }

    // One record is at fault.
    pub fn at(refusal: Refusal, number: usize) -> Fault
        ensures { result ≡ record { refusal = refusal; «record» = Some number } }
    {
        Fault {
            refusal,
            record: Some(number),
        }
    }
}

// The refusal without its record.
impl From<Fault> for Refusal {
    ghost from_gives = { λ fault r. r ≡ fault.refusal };

    fn from(fault: Fault) -> Refusal {
        fault.refusal
    }
}

// The refusal by its number and in words, after the record at fault if there is one.
impl fmt::Display for Fault {
    fn fmt<W: fmt::Write>(&self, f: &mut fmt::Formatter<W>) -> fmt::Result {
        if let Some(record) = self.record {
            write!(f, "record {record}: ")?;
        }
        let refusal = self.refusal;
        let number = refusal.number();
        write!(f, "refused {number}: {refusal}")
    }
}

impl Error for Fault {}
