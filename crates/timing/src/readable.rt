ghost use Rattle.timing.specs.Meaning.{entry_at, is_faulty};
ghost use Rattle.timing.specs.Outcomes.{few_entries, first_faulty, granted, told, unless, unless_faulty};
ghost use Rattle.std.specs.Prelude.{◌≡◌};

use crate::limits::MAX_ENTRIES;
use crate::refusal::Refusal;
use crate::source::DelaySource;

// The place of the first faulty entry of a source.
pub fn first_faulty<S: DelaySource>(source: &S) -> Option<usize>
    ensures { result ≡ first_faulty 0 (S.meaning source.now).entries }
{
    (0..source.entry_count()).find(|place| is_faulty(source, *place))
}

// Whether the entry at a place is faulty.
fn is_faulty<S: DelaySource>(source: &S, place: usize) -> bool
    ensures { result ≡ is_faulty (entry_at (S.meaning source.now) place) }
{
    source.entry(place).is_err()
}

// Whether a source can be worked on: refused with 6 where it has too many entries, then with 15 at its first faulty one.
pub fn check_readable<S: DelaySource>(source: &S) -> Result<(), Refusal>
    ensures { told result ≡ unless (few_entries (S.meaning source.now)) 6 (unless_faulty (first_faulty 0 (S.meaning source.now).entries) (granted tt)) }
{
    if source.entry_count() > MAX_ENTRIES {
        return Err(Refusal::TooManyEntries);
    }
    match first_faulty(source) {
        Some(place) => Err(Refusal::FaultyEntry { place }),
        None => Ok(()),
    }
}
