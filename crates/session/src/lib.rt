// Sessions: path delays, pins and the ceiling of a circuit, edited between any two plans. What every edit must answer, and
// what is then in force, is said by the session book in specs/.
#![tactic(auto)]

ghost use Rattle.std.specs.Prelude.{ℕ, ◌<◌, ◌≤◌, vec_len};
ghost use Rattle.session.specs.Pairs.{AllLawful, Apart};
ghost use Rattle.timing.specs.Bounds.{RegisterCount};

use timing::pair::Pair;

mod edits;
mod in_force;
mod loading;
pub mod opening;
mod order;
mod saving;
pub mod view;

// The pair places and the pin bytes belong to the session while it is open. The first `used` places hold its pairs, no
// two between the same registers; the order is its own. It has no model, since promises
// speak of its memory too, which a view that hides the fields could not show; `book` says what it is to its users.
#[derive(Drop)]
pub struct Session {
    registers: u32,
    // All of the memory as it was handed in, since no edit may allocate; so how much of it is used stands beside it.
    pairs: Vec<Pair>,
    used: usize,
    pins: Vec<u8>,
    ceiling: u32,
    ghost registers_within: { RegisterCount registers },
    ghost fits: { used ≤ vec_len pairs },
    ghost few: { used ≤ 16384 },
    ghost pin_bytes: { registers ≤ vec_len pins },
    ghost apart: { Apart used pairs.items },
    ghost lawful: { AllLawful registers used pairs.items },
}
