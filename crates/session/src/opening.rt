ghost use Rattle.std.specs.Prelude.{◌≡◌, ◌≤◌, ◌++◌, length, drop, replicate, IfOk, vec_len, MatchResult};
ghost use Rattle.session.specs.Book.{book, fresh, open_answer};
ghost use Rattle.timing.specs.Outcomes.{granted, refused, told};
ghost use Rattle.timing.specs.Table.{refusal_number, refusal_values};

use crate::Session;
use timing::domain::FREE;
use timing::limits::{MAX_OFFSET, MAX_REGISTERS};
use timing::pair::Pair;
use timing::refusal::Refusal;

// An opening that was refused, with the memory as it was handed in.
#[derive(Drop)]
pub struct Unopened {
    pub refusal: Refusal,
    pub pair_memory: Vec<Pair>,
    pub pin_memory: Vec<u8>,
}

impl Session {
    // Opens a session for so many registers. It keeps as many pairs as there are places in pair memory, at most 16,384, and
    // wants a byte of pin memory for each register. No pair is kept and no register is pinned.
    pub fn open(
        registers: u32,
        pair_memory: Vec<Pair>,
        pin_memory: Vec<u8>,
    ) -> Result<Session, Unopened>
        ensures answer { MatchResult result (λ _. granted tt ≡ open_answer registers (vec_len pin_memory)) (λ e. refused (refusal_number e.refusal) (refusal_values e.refusal) ≡ open_answer registers (vec_len pin_memory)) }
        ensures book { MatchResult result (λ s. book s ≡ fresh registers (vec_len pair_memory)) (λ e. (e.pair_memory ≡ pair_memory) × (e.pin_memory ≡ pin_memory)) }
        ensures memory { IfOk result (λ s. (s.pairs ≡ pair_memory) × (drop registers s.pins.items ≡ drop registers pin_memory.items)) }
    {
        if let Err(refusal) = check_opening(registers, pin_memory.len()) {
            return Err(Unopened {
                refusal,
                pair_memory,
                pin_memory,
            });
        }
        let mut pins = pin_memory;
        free_pins(pins.as_mut_slice(), registers as usize);
        Ok(Session {
            registers,
            pairs: pair_memory,
            used: 0,
            pins,
            ceiling: MAX_OFFSET,
        })
    }

    // Ends the session and hands its memory back.
    pub fn close(self) -> (Vec<Pair>, Vec<u8>)
        ensures { (result.0 ≡ self.pairs) × (result.1 ≡ self.pins) }
    {
        let Session { pairs, pins, .. } = self;
        (pairs, pins)
    }
}

// Whether a session can be opened for so many registers with so many bytes of pin memory: refused with 1 and 9.
fn check_opening(registers: u32, pin_bytes: usize) -> Result<(), Refusal>
    ensures { told result ≡ open_answer registers pin_bytes }
{
    if !(1..=MAX_REGISTERS).contains(&registers) {
        return Err(Refusal::RegisterCount);
    }
    if pin_bytes < registers as usize {
        return Err(Refusal::MemoryTooShort);
    }
    Ok(())
}

// Leaves so many registers free.
fn free_pins(pins: &mut [u8], registers: usize)
    requires { registers ≤ length pins.old }
    ensures { pins.new ≡ replicate registers 2 ++ drop registers pins.old }
{
    pins[..registers].fill(FREE);
}
