ghost use Rattle.timing.specs.Outcomes.{granted, offset_within, period_within, told, unless};
ghost use Rattle.std.specs.Prelude.{◌≡◌};

use crate::refusal::Refusal;

// The numbers that bound the subject. Delays, offsets and periods are whole picoseconds.

// A circuit has 1 to this many registers.
pub const MAX_REGISTERS: u32 = 4096;
// A call takes a source of at most this many entries, and a session keeps at most this many pairs.
pub const MAX_ENTRIES: usize = 16_384;
// A period is from 1 to this.
pub const MAX_PERIOD: u32 = 4_096_000_000;
// An offset, and the ceiling of offsets, is from 0 to this.
pub const MAX_OFFSET: u32 = 1_000_000;
// A delay lies between this and its negative.
pub const MAX_DELAY: i32 = 1_000_000;
// The value that marks a delay as missing. It is no delay, and nothing ever stands in for it.
pub const MISSING_DELAY: i32 = -2_147_483_648;

// Whether a period keeps its limits; else it is refused with 8.
pub fn check_period(period: u32) -> Result<(), Refusal>
    ensures { told result ≡ unless (period_within period) 8 (granted tt) }
{
    if !(1..=MAX_PERIOD).contains(&period) {
        return Err(Refusal::PeriodOutOfLimits);
    }
    Ok(())
}

// Whether an offset, or a ceiling of offsets, keeps its limits; else it is refused with 7.
pub fn check_offset(offset: u32) -> Result<(), Refusal>
    ensures { told result ≡ unless (offset_within offset) 7 (granted tt) }
{
    if offset > MAX_OFFSET {
        return Err(Refusal::OffsetOutOfLimits);
    }
    Ok(())
}
