ghost use Rattle.delay_file.specs.Records.{Spelled, borrowed, name_of, pair_rest, reading, register_rest, seen, seen_pair};
ghost use Rattle.std.specs.Prelude.{◌≡◌, length, Ok};

use crate::fault::Fault;
use crate::fields::{all_zero, first_zero, i32_at, u32_at};
use crate::layout::{Kind, RECORD_BYTES};
use crate::names::is_lawful_name;
use timing::pair::Pair;
use timing::refusal::Refusal;

// A record as it reads: a register with its name, which is that part of the file itself, or a pair as given.
#[derive(Clone, Copy)]
pub enum Record<'a> {
    Register { number: u32, name: &'a [u8] },
    Delay(Pair),
}

impl<'a> Record<'a> {
    // The name, if this is a register.
    pub fn name(self) -> Option<&'a [u8]>
        ensures { borrowed result ≡ name_of (seen (Ok self.entry)) }
    {
        match self {
            Record::Register { name, .. } => Some(name),
            Record::Delay(_) => None,
        }
    }
}

// Reads the bytes of one record, whose number in its file a fault will name. What reads as a register or a pair is,
// byte for byte, what writing it gives.
pub fn decode<'a>(bytes: &'a [u8], record: usize) -> Result<Record<'a>, Fault>
    ensures value { seen result ≡ reading «record» bytes.now }
    ensures spelled { Spelled bytes.now (seen result) }
{
    if bytes.len() != RECORD_BYTES {
        return Err(Fault::at(Refusal::NotWholeRecords, record));
    }
    let [kind, reserved1, reserved2, reserved3, rest @ ..] = bytes else {
        return Err(Fault::at(Refusal::NotWholeRecords, record));
    };
    if *reserved1 != 0 || *reserved2 != 0 || *reserved3 != 0 {
        return Err(Fault::at(Refusal::MalformedRecord, record));
    }
    let Ok(kind) = Kind::try_from(*kind) else {
        return Err(Fault::at(Refusal::MalformedRecord, record));
    };
    match kind {
        Kind::Register => register_in(rest, record),
        Kind::Pair => Ok(Record::Delay(pair_in(rest, record)?)),
        Kind::Head | Kind::Word => Err(Fault::at(Refusal::MalformedRecord, record)),
    }
}

// The rest of a register record: its number and its name, which ends at the first zero byte.
fn register_in<'a>(rest: &'a [u8], record: usize) -> Result<Record<'a>, Fault>
    requires { length rest.now ≡ 28 }
    ensures { seen result ≡ register_rest «record» rest.now }
{
    let field = &rest[4..];
    let end = first_zero(field);
    let name = &field[0..end];
    if !is_lawful_name(name) || !all_zero(&field[end..]) {
        return Err(Fault::at(Refusal::MalformedRecord, record));
    }
    Ok(Record::Register {
        number: u32_at(rest, 0),
        name,
    })
}

// The rest of a pair record: its four fields, and zeros.
fn pair_in(rest: &[u8], record: usize) -> Result<Pair, Fault>
    requires { length rest.now ≡ 28 }
    ensures { seen_pair result ≡ pair_rest «record» rest.now }
{
    if !all_zero(&rest[16..]) {
        return Err(Fault::at(Refusal::MalformedRecord, record));
    }
    Ok(Pair {
        launch: u32_at(rest, 0),
        capture: u32_at(rest, 4),
        min: i32_at(rest, 8),
        max: i32_at(rest, 12),
    })
}
