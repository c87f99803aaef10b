// What the tests share: sessions and files made, and answers and sessions made comparable.
use delay_file::fault::Fault;
use delay_file::whole_file::encode_file;
use session::Session;
use std::alloc::Global;
use std::test::Fail;
use timing::pair::Pair;
use timing::refusal::Refusal;
use timing::source::DelaySource;

// (The tests of delay files have their own, since no crate of tests builds on another.)
pub(crate) fn pair(launch: u32, capture: u32, min: i32, max: i32) -> Pair {
    Pair {
        launch,
        capture,
        min,
        max,
    }
}

// A session with no pairs. Its pair memory is filled with a pair of registers 0 and 0, which must never show.
pub(crate) fn opened(heap: Global, registers: u32, places: usize) -> Result<Session, Fail> {
    let pairs = vec![in heap; pair(0, 0, 77, 77); places]?;
    let pins = vec![in heap; 0u8; registers as usize]?;
    Session::open(registers, pairs, pins).map_err(|_| Fail::new("the session opens"))
}

// A delay file of so many registers and these pairs.
pub(crate) fn file(heap: Global, registers: usize, pairs: &[Pair]) -> Result<Vec<u8>, Fail> {
    let name: &[u8] = b"r";
    let names = vec![in heap; name; registers]?;
    encode_file(heap, names.as_slice(), pairs).map_err(|_| Fail::new("the file is written"))
}

// The number that an edit was refused with, if it was.
pub(crate) fn number(answer: Result<(), Refusal>) -> Option<u32> {
    answer.err().map(|refusal| refusal.number())
}

// The number that a load was refused with and the record at fault, if it was.
pub(crate) fn stop(answer: Result<(), Fault>) -> Option<(u32, Option<usize>)> {
    answer
        .err()
        .map(|fault| (fault.refusal.number(), fault.record))
}

// All that is in force in a session, the pairs as the bytes that it saves.
#[derive(PartialEq, Eq, Drop)]
pub(crate) struct InForce {
    pub registers: u32,
    pub records: Vec<u8>,
    pub pins: Vec<u8>,
    pub ceiling: u32,
}

pub(crate) fn in_force(heap: Global, session: &Session) -> Result<InForce, Fail> {
    let mut records = vec![in heap; 0u8; session.pair_count().saturating_mul(32)]?;
    session
        .save(records.as_mut_slice())
        .map_err(|_| Fail::new("the memory is long enough"))?;
    Ok(InForce {
        registers: session.registers(),
        records,
        pins: session.pins().to_vec(heap)?,
        ceiling: session.ceiling(),
    })
}

// How often a session shows a pair.
pub(crate) fn times_shown(session: &Session, wanted: Pair) -> usize {
    let view = session.view();
    (0..view.entry_count())
        .filter(|&place| view.entry(place) == Ok(wanted))
        .count()
}

// Whether a session shows these pairs, each once, and no other.
pub(crate) fn shows(session: &Session, pairs: &[Pair]) -> bool {
    pairs
        .iter()
        .all(|&wanted| times_shown(session, wanted) == 1)
        && session.pair_count() == pairs.len()
        && session.view().entry_count() == pairs.len()
}
