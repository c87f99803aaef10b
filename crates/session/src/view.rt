ghost use Rattle.session.specs.Book.{Lists, book, kept};
ghost use Rattle.session.specs.Saves.{session_meaning};
ghost use Rattle.std.specs.Prelude.{◌≡◌};

use crate::Session;
use timing::pair::Pair;
use timing::refusal::Refusal;
use timing::source::DelaySource;

// A session held for reading, as a source of delays.
#[derive(Clone, Copy)]
pub struct SessionView<'s> {
    session: &'s Session,
}

impl Session {
    // The session as a delay source: each pair once, in the order in which save writes them.
    pub fn view(&self) -> SessionView<'_>
        ensures same { result.session.now ≡ self.now }
        ensures lists { Lists (book self.now) (kept self.now) }
    {
        SessionView { session: self }
    }
}

impl DelaySource for SessionView<'_> {
    ghost meaning = { λ v. session_meaning v.session.now };

    fn register_count(&self) -> u32 {
        self.session.registers
    }

    fn entry_count(&self) -> usize {
        self.session.used
    }

    fn entry(&self, place: usize) -> Result<Pair, Refusal> {
        self.session
            .kept()
            .get(place)
            .copied()
            .ok_or(Refusal::NoSuchEntry)
    }
}
