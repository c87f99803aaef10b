use delay_file::fault::Fault;
use std::alloc::AllocError;
use timing::domain::Domain;
use timing::pair::Pair;
use timing::refusal::Refusal;

// A call of an open session: an edit, or a question.
#[derive(Drop)]
pub enum Call {
    Add(Pair),
    Retime(Pair),
    DropPair { launch: u32, capture: u32 },
    Pin { register: u32, domain: Domain },
    Unpin(u32),
    SetCeiling(u32),
    Load(Vec<u8>),
    Save,
    RegisterCount,
    EntryCount,
    Entry(usize),
}

// What a call was answered with.
#[derive(Drop)]
pub enum Answer {
    Edited(Result<(), Refusal>),
    Loaded(Result<(), Fault>),
    Saved(Result<Vec<u8>, AllocError>),
    Registers(u32),
    Entries(usize),
    Shown(Result<Pair, Refusal>),
}
