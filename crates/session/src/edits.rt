ghost use Rattle.std.specs.Prelude.{◌≡◌, ◌-◌, ◌<◌, min, true, is_some, IfSome, position, slice_index_or, vec_len};
ghost use Rattle.session.specs.Book.{Leaves, Stays, add_answer, added, book, ceiled, ceiling_answer, drop_answer, dropped, has, kept, pin_answer, pin_byte, pinned, retime_answer, retimed};
ghost use Rattle.session.specs.Pairs.{joins};
ghost use Rattle.timing.specs.Domains.{domain_byte};
ghost use Rattle.timing.specs.Outcomes.{granted, told};
ghost use Rattle.timing.specs.declared.pair.Pair.{Pair};

use crate::Session;
use timing::domain::{Domain, FREE};
use timing::limits::{MAX_ENTRIES, check_offset};
use timing::pair::Pair;
use timing::refusal::Refusal;

impl Session {
    // Puts a pair in: refused with 2, 14, 3, 4 and 6. (Each edit says by name what it answers, what is then in force and what
    // stays; one record of the three would hide which is which.)
    pub fn add(&mut self, pair: Pair) -> Result<(), Refusal>
        ensures answer { told result ≡ add_answer (book self.old) pair }
        ensures next { Leaves self.old self.new result (added (book self.old) pair) }
        ensures stays { Stays self.old self.new result }
    {
        pair.validate(self.registers)?;
        if self.place(pair.launch, pair.capture).is_some() {
            return Err(Refusal::PairPresent);
        }
        if self.spare() == 0 {
            return Err(Refusal::TooManyEntries);
        }
        self.put(pair);
        Ok(())
    }

    // Sets the delays of a pair that is there: refused with 2, 14, 3 and 5.
    pub fn retime(&mut self, pair: Pair) -> Result<(), Refusal>
        ensures answer { told result ≡ retime_answer (book self.old) pair }
        ensures next { Leaves self.old self.new result (retimed (book self.old) pair) }
        ensures stays { Stays self.old self.new result }
    {
        pair.validate(self.registers)?;
        let place = self
            .place(pair.launch, pair.capture)
            .ok_or(Refusal::NoSuchEntry)?;
        self.pairs[place] = pair;
        Ok(())
    }

    // Takes the pair between two registers out; its place serves later adds. Refused with 2 and 5.
    pub fn drop_pair(&mut self, launch: u32, capture: u32) -> Result<(), Refusal>
        ensures answer { told result ≡ drop_answer (book self.old) launch capture }
        ensures next { Leaves self.old self.new result (dropped (book self.old) launch capture) }
        ensures stays { Stays self.old self.new result }
    {
        if launch >= self.registers || capture >= self.registers {
            return Err(Refusal::NoSuchRegister);
        }
        let place = self.place(launch, capture).ok_or(Refusal::NoSuchEntry)?;
        // The place is not taken out of the memory, which is handed back whole.
        let last = self.pairs[self.used - 1];
        self.pairs[place] = last;
        self.used -= 1;
        Ok(())
    }

    // Pins a register to a domain, in place of an older pin. Refused with 2.
    pub fn pin(&mut self, register: u32, domain: Domain) -> Result<(), Refusal>
        ensures answer { told result ≡ pin_answer (book self.old) register }
        ensures next { Leaves self.old self.new result (pinned (book self.old) register (domain_byte domain)) }
        ensures stays { Stays self.old self.new result }
    {
        self.set_pin(register, Some(domain))
    }

    // Leaves a register free. Refused with 2.
    pub fn unpin(&mut self, register: u32) -> Result<(), Refusal>
        ensures answer { told result ≡ pin_answer (book self.old) register }
        ensures next { Leaves self.old self.new result (pinned (book self.old) register 2) }
        ensures stays { Stays self.old self.new result }
    {
        self.set_pin(register, None)
    }

    // Pins a register to a domain, or leaves it free.
    fn set_pin(&mut self, register: u32, pin: Option<Domain>) -> Result<(), Refusal>
        ensures answer { told result ≡ pin_answer (book self.old) register }
        ensures next { Leaves self.old self.new result (pinned (book self.old) register (pin_byte pin)) }
        ensures stays { Stays self.old self.new result }
    {
        if register >= self.registers {
            return Err(Refusal::NoSuchRegister);
        }
        self.pins[register as usize] = pin.map_or(FREE, Domain::byte);
        Ok(())
    }

    // Sets the ceiling of offsets. Refused with 7.
    pub fn set_ceiling(&mut self, ceiling: u32) -> Result<(), Refusal>
        ensures answer { told result ≡ ceiling_answer ceiling }
        ensures next { Leaves self.old self.new result (ceiled (book self.old) ceiling) }
        ensures stays { Stays self.old self.new result }
    {
        check_offset(ceiling)?;
        self.ceiling = ceiling;
        Ok(())
    }

    // Puts in a pair that add would take.
    pub(crate) fn put(&mut self, pair: Pair)
        requires { granted tt ≡ add_answer (book self.old) pair }
        ensures next { book self.new ≡ added (book self.old) pair }
        ensures pins { self.new.pins ≡ self.old.pins }
    {
        self.pairs[self.used] = pair;
        self.used += 1;
    }

    // How many pairs more can be kept.
    pub(crate) fn spare(&self) -> usize
        ensures { result ≡ min (vec_len self.now.pairs) 16384 - self.now.used }
    {
        self.pairs.len().min(MAX_ENTRIES) - self.used
    }

    // Where the pair between two registers is kept. Callers have the two as numbers, and a struct of them would be taken apart at
    // once.
    pub(crate) fn place(&self, launch: u32, capture: u32) -> Option<usize>
        ensures found { is_some result ≡ has (book self.now) launch capture }
        ensures there { IfSome result (λ i. i < self.now.used) }
        ensures joins { IfSome result (λ i. (d : Pair) → joins (slice_index_or self.now.pairs.items i d) launch capture ≡ true) }
    {
        place_in(self.kept(), launch, capture)
    }

    // The pairs, by the places in which they are kept.
    pub(crate) fn kept(&self) -> &[Pair]
        ensures { result.now ≡ kept self.now }
    {
        &self.pairs[..self.used]
    }
}

// The first place in a list of a pair between two registers.
fn place_in(pairs: &[Pair], launch: u32, capture: u32) -> Option<usize>
    ensures { result ≡ position (λ p. joins p launch capture) pairs.now }
{
    pairs
        .iter()
        .position(|pair| pair.launch == launch && pair.capture == capture)
}
