ghost use Rattle.timing.specs.Plans.{domains_of};
ghost use Rattle.plan_file.specs.Draft.{draft_slack, draft_time};
ghost use Rattle.plan_file.specs.PlanRecords.{domain_word, late_at, late_number};
ghost use Rattle.std.specs.Prelude.{◌≡◌, ◌+◌, ◌^◌, ◌<◌};

use timing::domain::Domain;
use timing::pair::Pair;

// A plan that nobody has checked: a period, an offset, and domain memory held for reading, a byte for each register. The
// byte 1 is the late clock, any other the early one.
#[derive(Drop)]
pub struct Draft<'d> {
    pub period: u32,
    pub offset: u32,
    pub domains: &'d [u8],
}

impl Draft<'_> {
    // The domain of a register; one past the memory is early.
    pub fn domain(&self, register: u32) -> Domain
        ensures { result ≡ domains_of self.now.domains.now register }
    {
        self.domains
            .get(register as usize)
            .map_or(Domain::Early, |&byte| Domain::from(byte))
    }

    // When a register is clocked.
    pub fn clock_time(&self, register: u32) -> i64
        ensures { result ≡ draft_time self.now register }
    {
        self.domain(register).clock_time(self.offset)
    }

    // What a pair has to spare: the smaller of its setup and its hold slack.
    pub fn slack(&self, pair: Pair) -> i128
        ensures { result ≡ draft_slack self.now pair }
    {
        let launch = self.clock_time(pair.launch);
        let capture = self.clock_time(pair.capture);
        let setup = pair.setup_slack(self.period, launch, capture);
        setup.min(pair.hold_slack(launch, capture))
    }

    // How many of so many registers are late.
    pub fn late_count(&self, registers: u32) -> u32
        ensures { result ≡ late_number registers self.now.domains.now }
    {
        let end = self.domains.len().min(registers as usize);
        let mut late = 0;
        // A chain of `filter` and `count` takes four times as long.
        for byte in &self.domains[..end] {
            if *byte == Domain::Late.byte() {
                late += 1;
            }
        }
        late
    }

    // The word of the 64 registers from `first` on: which of them are late.
    pub(crate) fn word(&self, registers: u32, first: u32) -> u64
        requires { first + 64 < 2 ^ 32 }
        ensures { result ≡ domain_word registers self.now.domains.now first }
    {
        let mut word: u64 = 0;
        // A fold over the late ones of 64 bits is no plainer: it sets each of them as this loop does.
        for i in 0..64 {
            if self.is_late(registers, first + i) {
                word |= 1 << i;
            }
        }
        word
    }

    // Whether a register is one of so many and late.
    fn is_late(&self, registers: u32, register: u32) -> bool
        ensures { result ≡ late_at registers self.now.domains.now register }
    {
        register < registers && self.domain(register) == Domain::Late
    }
}
