// How a file is laid out: records of 32 bytes, one behind the other. Fields are big-endian, signed fields in two's
// complement, and bytes that no field uses are zero.
ghost use Rattle.std.specs.Prelude.{◌≡◌, ◌<◌, length};
ghost use Rattle.delay_file.specs.Files.{record_at, record_count};
ghost use Rattle.delay_file.specs.Kinds.{IsKindOf, kind_byte};

use std::error::Error;
use std::fmt;

// Every record has this many bytes.
pub const RECORD_BYTES: usize = 32;
// The longest name of a register.
pub const MAX_NAME: usize = 24;

// The kinds of record. A delay file has registers and pairs, a plan file a head and words of domains.
#[derive(Clone, Copy, PartialEq, Eq, Debug)]
pub enum Kind {
    Register = 1,
    Pair = 2,
    Head = 16,
    Word = 17,
}

impl Kind {
    // The byte that a record of this kind starts with.
    pub fn byte(self) -> u8
        ensures { result ≡ kind_byte self }
    {
        self as u8
    }
}

// A byte that no kind of record starts with.
#[derive(Clone, Copy, PartialEq, Eq, Debug)]
pub struct UnknownKind(pub u8);

impl TryFrom<u8> for Kind {
    type Error = UnknownKind;

    ghost try_from_gives = { IsKindOf };

    fn try_from(byte: u8) -> Result<Kind, UnknownKind> {
        match byte {
            1 => Ok(Kind::Register),
            2 => Ok(Kind::Pair),
            16 => Ok(Kind::Head),
            17 => Ok(Kind::Word),
            _ => Err(UnknownKind(byte)),
        }
    }
}

impl fmt::Display for UnknownKind {
    fn fmt<W: fmt::Write>(&self, f: &mut fmt::Formatter<W>) -> fmt::Result {
        write!(f, "no kind of record starts with {}", self.0)
    }
}

impl Error for UnknownKind {}

// The bytes of a record, or as many of them as there are where the file ends before it does.
#[inline]
pub fn record_bytes<'a>(bytes: &'a [u8], record: usize) -> &'a [u8]
    ensures bytes { result.now ≡ record_at bytes.now «record» }
    ensures length { «record» < record_count bytes.now → length result.now ≡ 32 }
{
    let at = record.saturating_mul(RECORD_BYTES).min(bytes.len());
    let end = at.saturating_add(RECORD_BYTES).min(bytes.len());
    &bytes[at..end]
}
