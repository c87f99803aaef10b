// Every byte of a record matters: each of the 32 positions of a register and of a pair record damaged by itself.
use delay_file::encoding::{encode_pair, encode_register};
use delay_file::view::FileView;
use std::process::Abort;
use std::test::Fail;
use timing::pair::Pair;

// A file of the registers ra and rb7 and the pair ra to rb7 (2, 6), in the records 0, 1 and 2.
fn good_file() -> Option<[u8; 96]> {
    let mut file = [0u8; 96];
    let (Ok(first), Ok(second)) = (encode_register(0, b"ra"), encode_register(1, b"rb7")) else {
        return None;
    };
    file[0..32].copy_from_slice(&first);
    file[32..64].copy_from_slice(&second);
    file[64..96].copy_from_slice(&encode_pair(Pair {
        launch: 0,
        capture: 1,
        min: 2,
        max: 6,
    }));
    Some(file)
}

// A file that opens: how many registers it has, and the number that its first entry is refused with, if it is.
#[derive(Clone, Copy, PartialEq, Eq, Debug)]
struct Opened {
    registers: u32,
    entry: Option<u32>,
}

// What is answered for a file: that it opens, or the number and the record that it is refused with.
fn answer_for(file: &[u8]) -> Result<Opened, (u32, Option<usize>)> {
    let view = FileView::open(file).map_err(|fault| (fault.refusal.number(), fault.record))?;
    Ok(Opened {
        registers: view.registers(),
        entry: view.pair(0).err().map(|fault| fault.refusal.number()),
    })
}

const AS_MADE: Result<Opened, (u32, Option<usize>)> = Ok(Opened {
    registers: 2,
    entry: None,
});

const RECORD_1_MALFORMED: Result<Opened, (u32, Option<usize>)> = Err((13, Some(1)));

// Record 1 is no register any more, and as an entry it is malformed.
const REGISTERS_END: Result<Opened, (u32, Option<usize>)> = Ok(Opened {
    registers: 1,
    entry: Some(13),
});

// The top bit of byte 0 turned: record 1 is no register any more, so the registers end before it and it is a faulty
// entry. The top bit of any other byte turned: a zero byte, the number or the name breaks the format at record 1.
#[test]
fn a_register_record_with_a_bit_turned(rt: HostRuntime) -> Result<(), Fail> {
    let good = good_file().ok_or("the file is made")?;
    assert_eq!(rt; answer_for(&good), AS_MADE);
    // The place of a byte decides what is expected, so each is damaged by its place.
    for at in 0..32 {
        let mut file = good;
        file[32 + at] ^= 128;
        let expected = match at {
            0 => REGISTERS_END,
            _ => RECORD_1_MALFORMED,
        };
        assert_eq!(rt; answer_for(&file), expected);
    }
    Ok(())
}

// The letter x in the place of each byte: in the name, and right behind it, that is another lawful name.
#[test]
fn a_register_record_with_a_letter_put_in(rt: HostRuntime) -> Result<(), Fail> {
    let good = good_file().ok_or("the file is made")?;
    // The place of a byte decides what is expected, so each is damaged by its place.
    for at in 0..32 {
        let mut file = good;
        file[32 + at] = 120;
        let expected = match at {
            0 => REGISTERS_END,
            8..=11 => AS_MADE,
            _ => RECORD_1_MALFORMED,
        };
        assert_eq!(rt; answer_for(&file), expected);
    }
    Ok(())
}

// What the pair is refused with when the top bit of each of its bytes is turned: the kind, the zero bytes, the two
// registers, min (3 where it is out of limits or above max), max (the two low bytes still give a lawful one), zeros.
fn pair_refused(at: usize) -> Option<u32> {
    match at {
        4..=11 => Some(2),
        12..=17 => Some(3),
        18 | 19 => None,
        _ => Some(13),
    }
}

#[test]
fn a_pair_record_with_a_bit_turned(rt: HostRuntime) -> Result<(), Fail> {
    let good = good_file().ok_or("the file is made")?;
    // The place of a byte decides what is expected, so each is damaged by its place.
    for at in 0..32 {
        let mut file = good;
        file[64 + at] ^= 128;
        let expected = Ok(Opened {
            registers: 2,
            entry: pair_refused(at),
        });
        assert_eq!(rt; answer_for(&file), expected);
    }
    Ok(())
}

// The mark of a missing delay.
const MISSING: [u8; 4] = [128, 0, 0, 0];

// A pair with a missing delay is 14; with a register that is not there too, 2; and malformed besides, 13.
fn check_missing(rt: &impl Abort, with_mark: [u8; 96]) {
    let mut file = with_mark;
    assert_eq!(rt; first_refusal(&file), Some(14));
    file[71] = 2;
    assert_eq!(rt; first_refusal(&file), Some(2));
    file[95] = 1;
    assert_eq!(rt; first_refusal(&file), Some(13));
}

fn first_refusal(file: &[u8; 96]) -> Option<u32> {
    answer_for(file).ok()?.entry
}

#[test]
fn a_missing_delay_is_nothing_else(rt: HostRuntime) -> Result<(), Fail> {
    let mut min_missing = good_file().ok_or("the file is made")?;
    let mut max_missing = min_missing;
    min_missing[76..80].copy_from_slice(&MISSING);
    max_missing[80..84].copy_from_slice(&MISSING);
    check_missing(&rt, min_missing);
    check_missing(&rt, max_missing);
    Ok(())
}
