ghost use Rattle.timing.specs.Meaning.{LawfulEntry, LawfulMeaning, Meaning, answered, entry_at};
ghost use Rattle.std.specs.Prelude.{◌≡◌, length};

use crate::pair::Pair;
use crate::refusal::Refusal;

// Where delays come from. A source means a register count from 1 to 4,096 and a list of entries, each a lawful pair or
// a faulty entry with the number of its refusal. It answers three questions, and being asked changes nothing. Two
// registers may share several entries; each of them counts.
pub trait DelaySource {
    ghost meaning: { Self → Meaning };

    // How many registers there are. That the whole meaning is lawful is promised here, since every call asks this; as a law
    // of the trait it would be no plainer, for the proof that each source owes would have to stand among its specs.
    fn register_count(&self) -> u32
        ensures value { result ≡ (meaning self.now).registers }
        ensures lawful { LawfulMeaning (meaning self.now) };

    fn entry_count(&self) -> usize
        ensures { result ≡ length (meaning self.now).entries };

    // The entry at a place, counted from 0: its pair or its refusal; at and past the count, NoSuchEntry.
    fn entry(&self, place: usize) -> Result<Pair, Refusal>
        ensures value { answered result ≡ entry_at (meaning self.now) place }
        ensures lawful { LawfulEntry (meaning self.now).registers (answered result) };
}
