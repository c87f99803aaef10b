// What is in force in a session, besides its pairs.
ghost use Rattle.session.specs.Book.{book};
ghost use Rattle.std.specs.Prelude.{◌≡◌};

use crate::Session;

impl Session {
    pub fn registers(&self) -> u32
        ensures { result ≡ (book self.now).registers }
    {
        self.registers
    }

    // How many pairs there are.
    pub fn pair_count(&self) -> usize
        ensures { result ≡ (book self.now).count }
    {
        self.used
    }

    // A pin byte for each register: 0 early, 1 late, 2 free.
    pub fn pins(&self) -> &[u8]
        ensures { result.now ≡ (book self.now).pins }
    {
        &self.pins[..self.registers as usize]
    }

    pub fn ceiling(&self) -> u32
        ensures { result ≡ (book self.now).ceiling }
    {
        self.ceiling
    }
}
