ghost use Rattle.std.specs.Prelude.{◌≡◌, ◌↔◌, pos, ◌-ℤ◌, ◌≤ℤ◌, IsOk};
ghost use Rattle.timing.specs.Delays.{Hold, Lawful, Setup, hold_room, hold_slack, setup_room, setup_slack};
ghost use Rattle.timing.specs.Meaning.{answered, judged};

use crate::limits::{MAX_DELAY, MISSING_DELAY};
use crate::refusal::Refusal;

// The paths from a launch register to a capture register: the shortest and the longest delay among them, which contain
// the registers' hold and setup times. A pair as given may name no such register, lack a delay or break the limits;
// `validate` tells.
#[derive(Clone, Copy, PartialEq, Eq, Debug)]
pub struct Pair {
    pub launch: u32,
    pub capture: u32,
    pub min: i32,
    pub max: i32,
}

impl Pair {
    // The pair, if it is lawful in a circuit of so many registers; else the first refusal of 2, 14 and 3.
    pub fn validate(self, registers: u32) -> Result<Pair, Refusal>
        ensures answer { answered result ≡ judged registers self }
        ensures exact { IsOk result ↔ Lawful registers self }
    {
        if self.launch >= registers || self.capture >= registers {
            return Err(Refusal::NoSuchRegister);
        }
        if self.min == MISSING_DELAY || self.max == MISSING_DELAY {
            return Err(Refusal::DelayMissing);
        }
        if self.min < -MAX_DELAY || self.min > self.max || self.max > MAX_DELAY {
            return Err(Refusal::DelayOutOfLimits);
        }
        Ok(self)
    }

    // How far the launch register may be clocked after the capture register.
    pub fn setup_room(self, period: u32) -> i64
        ensures { result ≡ setup_room self period }
    {
        i64::from(period) - i64::from(self.max)
    }

    // How far the capture register may be clocked after the launch register.
    pub fn hold_room(self) -> i64
        ensures { result ≡ hold_room self }
    {
        i64::from(self.min)
    }

    // What the setup limit has to spare with the launch and the capture register clocked at these times.
    pub fn setup_slack(self, period: u32, launch: i64, capture: i64) -> i128
        ensures value { result ≡ setup_slack self period launch capture }
        ensures kept { pos 0 ≤ℤ result ↔ Setup self period launch capture }
    {
        spare(self.setup_room(period), launch, capture)
    }

    // What the hold limit has to spare with the launch and the capture register clocked at these times.
    pub fn hold_slack(self, launch: i64, capture: i64) -> i128
        ensures value { result ≡ hold_slack self launch capture }
        ensures kept { pos 0 ≤ℤ result ↔ Hold self launch capture }
    {
        spare(self.hold_room(), capture, launch)
    }
}

// What is left of the room when one clock time lies after another. Two 64-bit times can lie further apart than 64 bits
// can say.
fn spare(room: i64, later: i64, sooner: i64) -> i128
    ensures { result ≡ room -ℤ (later -ℤ sooner) }
{
    let apart = i128::from(later) - i128::from(sooner);
    i128::from(room) - apart
}
