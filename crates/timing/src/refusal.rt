ghost use Rattle.timing.specs.Table.{part_number, refusal_number};
ghost use Rattle.std.specs.Prelude.{◌≡◌};

use std::error::Error;
use std::fmt;

// What a draft can break first: its offset the ceiling, a register its pin, an entry its setup or its hold limit.
#[derive(Clone, Copy, PartialEq, Eq, Debug)]
pub enum Part {
    Ceiling,
    Pin,
    Setup,
    Hold,
}

impl Part {
    // The part's number. A name says which number it is, where `u32::from` would not.
    pub fn number(self) -> u32
        ensures { result ≡ part_number self }
    {
        match self {
            Part::Ceiling => 1,
            Part::Pin => 2,
            Part::Setup => 3,
            Part::Hold => 4,
        }
    }
}

// The rows of the refusal table, in its order, each with the values that the row names.
#[derive(Clone, Copy, PartialEq, Eq, Debug)]
pub enum Refusal {
    RegisterCount,
    NoSuchRegister,
    DelayOutOfLimits,
    PairPresent,
    NoSuchEntry,
    TooManyEntries,
    OffsetOutOfLimits,
    PeriodOutOfLimits,
    MemoryTooShort,
    NoLegalPlan,
    NoFreeTimes,
    NotWholeRecords,
    MalformedRecord,
    DelayMissing,
    FaultyEntry {
        place: usize,
    },
    DraftNotLegal {
        part: Part,
        place: usize,
        excess: u32,
    },
    WitnessUnsound {
        link: usize,
    },
}

impl Refusal {
    // The row's number, by which a refusal is known outside the library. A name says which number it is, where `u32::from`
    // would not.
    pub fn number(self) -> u32
        ensures { result ≡ refusal_number self }
    {
        match self {
            Refusal::RegisterCount => 1,
            Refusal::NoSuchRegister => 2,
            Refusal::DelayOutOfLimits => 3,
            Refusal::PairPresent => 4,
            Refusal::NoSuchEntry => 5,
            Refusal::TooManyEntries => 6,
            Refusal::OffsetOutOfLimits => 7,
            Refusal::PeriodOutOfLimits => 8,
            Refusal::MemoryTooShort => 9,
            Refusal::NoLegalPlan => 10,
            Refusal::NoFreeTimes => 11,
            Refusal::NotWholeRecords => 12,
            Refusal::MalformedRecord => 13,
            Refusal::DelayMissing => 14,
            Refusal::FaultyEntry { .. } => 15,
            Refusal::DraftNotLegal { .. } => 16,
            Refusal::WitnessUnsound { .. } => 17,
        }
    }
}

impl fmt::Display for Part {
    fn fmt<W: fmt::Write>(&self, f: &mut fmt::Formatter<W>) -> fmt::Result {
        f.write_str(match self {
            Part::Ceiling => "offset above the ceiling",
            Part::Pin => "register not in its pinned domain",
            Part::Setup => "setup limit broken",
            Part::Hold => "hold limit broken",
        })
    }
}

// What a row says to people.
impl fmt::Display for Refusal {
    fn fmt<W: fmt::Write>(&self, f: &mut fmt::Formatter<W>) -> fmt::Result {
        match self {
            Refusal::RegisterCount => {
                f.write_str("register count outside 1 to 4,096, or not the session's")
            }
            Refusal::NoSuchRegister => f.write_str("no such register"),
            Refusal::DelayOutOfLimits => {
                f.write_str("delay outside -1,000,000 to 1,000,000, or min above max")
            }
            Refusal::PairPresent => f.write_str("pair present"),
            Refusal::NoSuchEntry => f.write_str("no such pair or entry"),
            Refusal::TooManyEntries => f.write_str("over 16,384 entries, or pair memory full"),
            Refusal::OffsetOutOfLimits => f.write_str("ceiling or offset outside 0 to 1,000,000"),
            Refusal::PeriodOutOfLimits => f.write_str("period outside 1 to 4,096,000,000"),
            Refusal::MemoryTooShort => f.write_str("memory too short"),
            Refusal::NoLegalPlan => f.write_str("no legal plan"),
            Refusal::NoFreeTimes => f.write_str("no free clock times at any period"),
            Refusal::NotWholeRecords => f.write_str("length not whole records of 32 bytes"),
            Refusal::MalformedRecord => f.write_str("record malformed"),
            Refusal::DelayMissing => f.write_str("delay missing"),
            Refusal::FaultyEntry { .. } => f.write_str("faulty entry"),
            Refusal::DraftNotLegal { part, .. } => write!(f, "{part}"),
            Refusal::WitnessUnsound { .. } => f.write_str("witness unsound"),
        }
    }
}

impl Error for Refusal {}
