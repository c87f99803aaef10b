// Whole files: their length, their registers, their entries.
use delay_file::encoding::{encode_pair, encode_register};
use delay_file::fault::Fault;
use delay_file::view::FileView;
use std::alloc::{AllocError, Global};
use std::test::Fail;
use timing::pair::Pair;
use timing::refusal::Refusal;
use timing::source::DelaySource;

// A file of so many registers, all named r.
fn registers_file(heap: Global, count: u32) -> Result<Vec<u8>, AllocError> {
    let mut file = Vec::new(heap);
    // Memory for each can run out, so a chain would be no plainer.
    for number in 0..count {
        if let Ok(record) = encode_register(number, b"r") {
            file.extend_from_slice(&record)?;
        }
    }
    Ok(file)
}

// Why a file does not open.
fn refusal(file: &[u8]) -> Option<Fault> {
    FileView::open(file).err()
}

#[test]
fn the_number_of_registers(rt: HostRuntime) -> Result<(), Fail> {
    let too_few_or_many = Some(Fault::of_file(Refusal::RegisterCount));
    let mut file = registers_file(rt.alloc(), 4096)?;
    assert_eq!(rt; refusal(file.as_slice()), None);
    if let Ok(record) = encode_register(4096, b"r") {
        file.extend_from_slice(&record)?;
    }
    assert_eq!(rt; file.len(), 4097 * 32);
    assert_eq!(rt; refusal(file.as_slice()), too_few_or_many);
    assert_eq!(rt; refusal(registers_file(rt.alloc(), 1)?.as_slice()), None);
    assert_eq!(rt; refusal(&[]), too_few_or_many);
    assert_eq!(rt;
        refusal(&encode_pair(Pair {
            launch: 0,
            capture: 0,
            min: 0,
            max: 0,
        }),),
        too_few_or_many
    );
    Ok(())
}

#[test]
fn lengths_that_are_not_whole_records(rt: HostRuntime) -> Result<(), Fail> {
    let file = registers_file(rt.alloc(), 3)?;
    assert!(rt; file.len() == 96);
    let bytes = file.as_slice();
    for length in [1usize, 31, 33, 63, 95] {
        if length <= bytes.len() {
            assert_eq!(rt;
                refusal(&bytes[0..length]),
                Some(Fault::of_file(Refusal::NotWholeRecords))
            );
        }
    }
    assert_eq!(rt; refusal(&bytes[0..64]), None);
    Ok(())
}

#[test]
fn the_first_register_out_of_order_is_at_fault(rt: HostRuntime) -> Result<(), Fail> {
    let mut file = registers_file(rt.alloc(), 2)?;
    for number in [3, 2] {
        if let Ok(record) = encode_register(number, b"r") {
            file.extend_from_slice(&record)?;
        }
    }
    assert_eq!(rt;
        refusal(file.as_slice()),
        Some(Fault::at(Refusal::MalformedRecord, 2))
    );
    Ok(())
}

#[test]
fn entries_in_their_order(rt: HostRuntime) -> Result<(), Fail> {
    let there = Pair {
        launch: 0,
        capture: 1,
        min: 2,
        max: 6,
    };
    let mut file = registers_file(rt.alloc(), 2)?;
    file.extend_from_slice(&encode_pair(there))?;
    if let Ok(record) = encode_register(2, b"late") {
        file.extend_from_slice(&record)?;
    }
    file.extend_from_slice(&encode_pair(Pair {
        launch: 2,
        capture: 0,
        min: 0,
        max: 0,
    }))?;
    let Ok(view) = FileView::open(file.as_slice()) else {
        return Err(Fail::new("the file opens"));
    };
    assert_eq!(rt; view.register_count(), 2);
    assert_eq!(rt; view.entry_count(), 3);
    assert_eq!(rt; view.entry(0), Ok(there));
    assert_eq!(rt; view.entry(1), Err(Refusal::MalformedRecord));
    assert_eq!(rt; view.pair(1), Err(Fault::at(Refusal::MalformedRecord, 3)));
    assert_eq!(rt; view.pair(2), Err(Fault::at(Refusal::NoSuchRegister, 4)));
    assert_eq!(rt; view.entry(3), Err(Refusal::NoSuchEntry));
    assert_eq!(rt;
        view.entry(18_446_744_073_709_551_615),
        Err(Refusal::NoSuchEntry)
    );
    Ok(())
}

#[test]
fn names_of_the_registers_of_a_file(rt: HostRuntime) -> Result<(), Fail> {
    let mut file = Vec::new(rt.alloc());
    for (number, name) in [(0u32, b"ra"), (1, b"rb")] {
        if let Ok(record) = encode_register(number, name) {
            file.extend_from_slice(&record)?;
        }
    }
    let Ok(view) = FileView::open(file.as_slice()) else {
        return Err(Fail::new("the file opens"));
    };
    assert!(rt; view.name(1) == Some(b"rb"));
    assert!(rt; view.name(2) == None);
    assert_eq!(rt; view.record_count(), 2);
    Ok(())
}
