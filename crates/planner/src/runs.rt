ghost use Rattle.std.specs.Prelude.{◌≡◌, ◌≤◌, [], length, IfOk, vec_len, vec_capacity, MatchResult};
ghost use Rattle.planner.specs.Runs.{BookDecided, Right, RightAtEach, Runs, RunsJoined, Saves, next};
ghost use Rattle.session.specs.Book.{Book, book, fresh};

use crate::call::{Answer, Call};
use delay_file::layout::RECORD_BYTES;
use session::Session;
use session::opening::Unopened;
use std::alloc::{AllocError, Global};
use timing::pair::Pair;
use timing::source::DelaySource;

// Performs one call, and gives its answer. Calls are data and not closures, since lists of them are kept, and promises are made
// about such lists.
pub fn step(session: &mut Session, heap: Global, call: &Call) -> Answer
    ensures right { Right (book session.old) call.now result }
    ensures next { book session.new ≡ next (book session.old) call.now }
{
    match call {
        Call::Add(pair) => Answer::Edited(session.add(*pair)),
        Call::Retime(pair) => Answer::Edited(session.retime(*pair)),
        Call::DropPair { launch, capture } => Answer::Edited(session.drop_pair(*launch, *capture)),
        Call::Pin { register, domain } => Answer::Edited(session.pin(*register, *domain)),
        Call::Unpin(register) => Answer::Edited(session.unpin(*register)),
        Call::SetCeiling(ceiling) => Answer::Edited(session.set_ceiling(*ceiling)),
        Call::Load(file) => Answer::Loaded(session.load(file.as_slice())),
        Call::Save => Answer::Saved(saved(session, heap)),
        Call::RegisterCount => Answer::Registers(session.registers()),
        Call::EntryCount => Answer::Entries(session.pair_count()),
        Call::Entry(place) => Answer::Shown(session.view().entry(*place)),
    }
}

// What save writes, in memory of its own.
fn saved(session: &Session, heap: Global) -> Result<Vec<u8>, AllocError>
    ensures { Saves (book session.now) result }
{
    let mut out = Vec::from_elem(heap, 0u8, session.pair_count() * RECORD_BYTES)?;
    session.save(out.as_mut_slice()).unwrap();
    Ok(out)
}

// Performs calls one after another, into memory that has room for their answers. It cannot fail.
pub(crate) fn run_into(
    session: &mut Session,
    heap: Global,
    calls: &[Call],
    answers: &mut Vec<Answer>,
)
    requires empty { answers.old.items ≡ [] }
    requires room { length calls.now ≤ vec_capacity answers.old }
    ensures { Runs (book session.old) calls.now answers.new.items (book session.new) }
{
    // Each turn changes the session, so a chain would be no plainer.
    for call in calls {
        answers.push_reserved(step(session, heap, call));
    }
}

// Performs calls one after another and gives their answers: after any list of calls, in any order, granted or refused, each
// was answered as the book answers it, and the session is the book's. Without memory for the answers it performs none.
pub fn run(session: &mut Session, heap: Global, calls: &[Call]) -> Result<Vec<Answer>, AllocError>
    ensures { MatchResult result (λ answers. Runs (book session.old) calls.now answers.items (book session.new)) (λ _. session.new ≡ session.old) }
{
    let mut answers = Vec::with_capacity(heap, calls.len())?;
    run_into(session, heap, calls, &mut answers);
    Ok(answers)
}

// Why a session was not run.
#[derive(Drop)]
pub enum Unserved {
    Unopened(Unopened),
    Memory,
}

impl From<Unopened> for Unserved {
    ghost use Rattle.planner.specs.declared.runs.Unserved.TheVariants.{Unopened};

    ghost from_gives = { λ unopened e. e ≡ Unopened unopened };

    fn from(unopened: Unopened) -> Unserved {
        Unserved::Unopened(unopened)
    }
}

impl From<AllocError> for Unserved {
    ghost use Rattle.planner.specs.declared.runs.Unserved.TheVariants.{Memory};

    ghost from_gives = { λ _ e. e ≡ Memory };

    fn from(_error: AllocError) -> Unserved {
        Unserved::Memory
    }
}

// Opens a session and performs calls in it: the same, from the book of a session that was just opened.
pub fn run_from_opening(
    heap: Global,
    registers: u32,
    pair_memory: Vec<Pair>,
    pin_memory: Vec<u8>,
    calls: &[Call],
) -> Result<Vec<Answer>, Unserved>
    ensures { IfOk result (λ answers. (end : Book) × Runs (fresh registers (vec_len pair_memory)) calls.now answers.items end) }
{
    let mut session = Session::open(registers, pair_memory, pin_memory)?;
    Ok(run(&mut session, heap, calls)?)
}

// The laws of runs: the calls alone decide the book; each answer is right for the book after the calls before it; two runs in
// a row are one. This does nothing; its contract is their statement.
pub fn laws_of_runs()
    ensures { BookDecided × RightAtEach × RunsJoined }
{}
