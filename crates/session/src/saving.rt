ghost use Rattle.std.specs.Prelude.{◌≡◌, ◌+◌, ◌*◌, ◌≤◌, ◌++◌, length, take, drop};
ghost use Rattle.delay_file.specs.Records.{pair_bytes};
ghost use Rattle.session.specs.Book.{Lists, book, kept};
ghost use Rattle.session.specs.Saves.{LoadsBack, Saved};

use crate::Session;
use delay_file::encoding::encode_pair;
use delay_file::layout::RECORD_BYTES;
use timing::pair::Pair;
use timing::refusal::Refusal;

impl Session {
    // Writes each pair once, as a record of a delay file. Wants 32 bytes a pair (9); what lies behind them stays as it was.
    // Behind the records of its registers, this loads into an empty session as the same pairs.
    pub fn save(&self, out: &mut [u8]) -> Result<usize, Refusal>
        ensures saved { Saved (kept self.now) out.old out.new result }
        ensures lists { Lists (book self.now) (kept self.now) }
        ensures loads_back { LoadsBack (book self.now) (kept self.now) }
    {
        let bytes = self.used * RECORD_BYTES;
        if out.len() < bytes {
            return Err(Refusal::MemoryTooShort);
        }
        let kept = self.kept();
        for (place, pair) in kept.iter().enumerate() {
            put_pair(out, place, *pair);
        }
        Ok(bytes)
    }
}

// Puts the record of a pair into its place. Plan files have their own: shared, it would be public and require the room, and
// no public function here requires anything.
fn put_pair(out: &mut [u8], place: usize, pair: Pair)
    requires { place * 32 + 32 ≤ length out.old }
    ensures { out.new ≡ take (place * 32) out.old ++ (pair_bytes pair ++ drop (place * 32 + 32) out.old) }
{
    let at = place * RECORD_BYTES;
    out[at..at + RECORD_BYTES].copy_from_slice(&encode_pair(pair));
}
