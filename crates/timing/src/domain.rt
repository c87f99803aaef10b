ghost use Rattle.timing.specs.Domains.{AsksFor, NamesDomain, domain_byte, domain_name};
ghost use Rattle.timing.specs.Plans.{clock, domain_of};
ghost use Rattle.std.specs.Prelude.{◌≡◌};

use std::error::Error;
use std::fmt;
use std::str::FromStr;

// The byte of pin memory that leaves a register free; every byte but those of the two domains does.
pub const FREE: u8 = 2;

// The two clocks that a register can be given.
#[derive(Clone, Copy, PartialEq, Eq, Debug)]
pub enum Domain {
    Early = 0,
    Late = 1,
}

impl Domain {
    // When a register of this domain is clocked: at 0 if early, at the offset if late.
    pub fn clock_time(self, offset: u32) -> i64
        ensures { result ≡ clock offset self }
    {
        match self {
            Domain::Early => 0,
            Domain::Late => i64::from(offset),
        }
    }

    // The byte that stands for this domain, in domain memory and in pin memory.
    pub fn byte(self) -> u8
        ensures value { result ≡ domain_byte self }
        ensures asks { AsksFor result self }
    {
        self as u8
    }

    // What this domain is called in reports and by people.
    pub fn name(self) -> &'static str
        ensures { result.now ≡ domain_name self }
    {
        match self {
            Domain::Early => "early",
            Domain::Late => "late",
        }
    }
}

// The domain that a byte of domain memory gives.
impl From<u8> for Domain {
    ghost from_gives = { λ byte d. d ≡ domain_of byte };

    fn from(byte: u8) -> Domain {
        if byte == 1 {
            Domain::Late
        } else {
            Domain::Early
        }
    }
}

// A word that names no domain.
#[derive(Clone, Copy, PartialEq, Eq, Debug)]
pub struct NoSuchDomain;

impl FromStr for Domain {
    type Err = NoSuchDomain;

    ghost from_str_gives = { NamesDomain };

    fn from_str(word: &str) -> Result<Domain, NoSuchDomain> {
        match word {
            "early" => Ok(Domain::Early),
            "late" => Ok(Domain::Late),
            _ => Err(NoSuchDomain),
        }
    }
}

impl fmt::Display for Domain {
    fn fmt<W: fmt::Write>(&self, f: &mut fmt::Formatter<W>) -> fmt::Result {
        f.write_str(self.name())
    }
}

impl fmt::Display for NoSuchDomain {
    fn fmt<W: fmt::Write>(&self, f: &mut fmt::Formatter<W>) -> fmt::Result {
        f.write_str("no such domain: early or late")
    }
}

impl Error for NoSuchDomain {}
