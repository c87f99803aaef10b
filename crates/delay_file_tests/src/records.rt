// Records one at a time: what is written reads back, and which names are taken.
use delay_file::encoding::{encode_pair, encode_register};
use delay_file::reading::{Record, decode};
use std::test::Fail;
use timing::limits::MISSING_DELAY;
use timing::pair::Pair;

// Whether a record of this name is written, and reads back as the same number and name.
fn reads_back(number: u32, name: &[u8]) -> bool {
    let Ok(record) = encode_register(number, name) else {
        return false;
    };
    match decode(&record, 0) {
        Ok(
            Record::Register {
                number: read,
                name: same,
            },
        ) => read == number && same == name,
        _ => false,
    }
}

// The number that a record is refused with, if it is.
fn refusal_number(record: &[u8]) -> Option<u32> {
    decode(record, 7).err().map(|fault| fault.refusal.number())
}

#[test]
fn names_of_registers(rt: HostRuntime) {
    assert!(rt; reads_back(0, b"a"));
    assert!(rt; reads_back(4095, b"abcdefghijklmnopqrstuvwx"));
    assert!(rt; reads_back(4_294_967_295, b"!~"));
    assert!(rt; !reads_back(0, b""));
    assert!(rt; !reads_back(0, b"abcdefghijklmnopqrstuvwxy"));
    assert!(rt; !reads_back(0, b"a b"));
    assert!(rt; !reads_back(0, &[127]));
    assert!(rt; !reads_back(0, &[97, 0, 97]));
}

#[test]
fn name_bytes_in_a_record(rt: HostRuntime) -> Result<(), Fail> {
    let Ok(good) = encode_register(5, b"ab") else {
        return Err(Fail::new("ab is a name"));
    };
    for (at, byte, number) in [
        (8, 32, Some(13)),
        (8, 33, None),
        (9, 126, None),
        (9, 127, Some(13)),
        (8, 0, Some(13)),
        (10, 97, None),
        (11, 97, Some(13)),
        (31, 97, Some(13)),
    ] {
        let mut record = good;
        record[at] = byte;
        assert_eq!(rt; refusal_number(&record), number);
    }
    Ok(())
}

#[test]
fn pairs_read_back(rt: HostRuntime) -> Result<(), Fail> {
    let pairs = [
        Pair {
            launch: 0,
            capture: 1,
            min: 2,
            max: 6,
        },
        Pair {
            launch: 4_294_967_295,
            capture: 16_909_060,
            min: -1,
            max: 2_147_483_647,
        },
        Pair {
            launch: 256,
            capture: 65_536,
            min: MISSING_DELAY,
            max: -1_000_000,
        },
    ];
    for pair in pairs {
        match decode(&encode_pair(pair), 0) {
            Ok(Record::Delay(same)) => assert_eq!(rt; same, pair),
            _ => return Err(Fail::new("a pair record reads as a pair")),
        }
    }
    Ok(())
}

#[test]
fn the_layout_of_a_pair_record(rt: HostRuntime) {
    let record = encode_pair(Pair {
        launch: 16_909_060,
        capture: 5,
        min: -2,
        max: 258,
    });
    let expected: [u8; 32] = [
        2, 0, 0, 0, 1, 2, 3, 4, 0, 0, 0, 5, 255, 255, 255, 254, 0, 0, 1, 2, 0, 0, 0, 0, 0, 0, 0, 0,
        0, 0, 0, 0,
    ];
    assert!(rt; record == expected);
}

#[test]
fn a_part_of_another_length_is_no_record(rt: HostRuntime) {
    let record = encode_pair(Pair {
        launch: 0,
        capture: 1,
        min: 2,
        max: 6,
    });
    assert_eq!(rt; refusal_number(&record[0..31]), Some(12));
    assert_eq!(rt; refusal_number(&[]), Some(12));
    assert_eq!(rt; refusal_number(&[0; 33]), Some(12));
    assert_eq!(rt; refusal_number(&[0; 32]), Some(13));
}
