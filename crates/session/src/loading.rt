ghost use Rattle.std.specs.Prelude.{◌≡◌, ℕ, ◌+◌, ◌<◌, length, take, is_some, Some, slice_index_or};
ghost use Rattle.session.specs.Pairs.{find};
ghost use Rattle.delay_file.specs.Files.{view_meaning, view_registers};
ghost use Rattle.session.specs.Book.{Book, Stays, add_answer, book};
ghost use Rattle.session.specs.Loads.{given_pairs, load_entries, loaded_as, loading, taken};
ghost use Rattle.session.specs.Orders.{Admitted, AllAdmitted, KnownOrder, Takes, with_first};
ghost use Rattle.timing.specs.Meaning.{judged};
ghost use Rattle.timing.specs.Meaning.{pair as entry_pair};
ghost use Rattle.timing.specs.declared.pair.Pair.{Pair};

use crate::Session;
use crate::order::Order;
use delay_file::fault::Fault;
use delay_file::view::FileView;
use timing::pair::Pair;
use timing::refusal::Refusal;
use timing::source::DelaySource;

impl Session {
    // Adds every pair of a delay file, in the file's order, or none: refused where the file does not open, with 1 where it
    // has another register count, and at the first record that is faulty or that add would refuse at its turn. All of it
    // is judged before anything is written.
    pub fn load(&mut self, file: &[u8]) -> Result<(), Fault>
        ensures answer { loaded_as result (book self.new) ≡ loading (book self.old) file.now }
        ensures stays { Stays self.old self.new result }
    {
        let view = FileView::open(file)?;
        if view.registers() != self.registers {
            return Err(Fault::of_file(Refusal::RegisterCount));
        }
        self.admits(&view)?;
        self.append(&view);
        Ok(())
    }

    // Whether every entry of a file would be added at its turn; else the fault of the first that would not.
    fn admits(&self, view: &FileView<'_>) -> Result<(), Fault>
        requires { view_registers view.now ≡ self.now.registers }
        ensures { AllAdmitted (book self.now) view.now result }
    {
        let mut order = Order::Nothing;
        // A file is asked by place, and `?` ends this at the first fault; a `try_fold` would be no plainer.
        for place in 0..view.entry_count() {
            order = self.admit(view, place, order)?;
        }
        Ok(())
    }

    // The order of the pairs up to the entry at a place, if that would be added, were the ones before it put in.
    fn admit(&self, view: &FileView<'_>, place: usize, order: Order) -> Result<Order, Fault>
        requires same { view_registers view.now ≡ self.now.registers }
        requires within { place < length (given_pairs view.now) }
        requires order { KnownOrder (given_pairs view.now) place order }
        ensures { Admitted (book self.now) view.now place result }
    {
        let pair = view.pair(place)?;
        let turn = Turn {
            view: *view,
            place,
            pair,
            order: order.with(pair),
        };
        self.would_add(&turn)?;
        Ok(turn.order)
    }

    // Puts in every pair of a file that was admitted.
    fn append(&mut self, view: &FileView<'_>)
        requires { (c : Book) × (load_entries (book self.old) (view_registers view.now) (view_meaning view.now).entries ≡ taken c) }
        ensures next { taken (book self.new) ≡ load_entries (book self.old) (view_registers view.now) (view_meaning view.now).entries }
        ensures pins { self.new.pins ≡ self.old.pins }
    {
        // A file is asked by place, and each turn changes the session, so a chain would be no plainer.
        for place in 0..view.entry_count() {
            self.put(view.pair(place).unwrap());
        }
    }

    // Whether add would take the pair of a turn, were the entries before its place put in; else the fault.
    fn would_add(&self, turn: &Turn<'_>) -> Result<(), Fault>
        requires same { view_registers turn.now.view ≡ self.now.registers }
        requires order { KnownOrder (given_pairs turn.now.view) (turn.now.place + 1) turn.now.order }
        ensures { Takes (view_registers turn.now.view + turn.now.place) (add_answer (with_first (book self.now) turn.now.view turn.now.place) turn.now.pair) result }
    {
        if self.place(turn.pair.launch, turn.pair.capture).is_some() || turn.repeats() {
            return Err(turn.fault(Refusal::PairPresent));
        }
        if self.spare() <= turn.place {
            return Err(turn.fault(Refusal::TooManyEntries));
        }
        Ok(())
    }
}

// A lawful entry of a file at its turn: its place, its pair, and the order of the file's pairs up to it.
#[derive(Drop)]
struct Turn<'f> {
    view: FileView<'f>,
    place: usize,
    pair: Pair,
    order: Order,
    ghost within: { place < length (given_pairs view) },
    ghost given: { (d : Pair) → pair ≡ slice_index_or (given_pairs view) place d },
    ghost lawful: { judged (view_registers view) pair ≡ entry_pair pair },
}

impl Turn<'_> {
    // A refusal of this entry, with its record.
    fn fault(&self, refusal: Refusal) -> Fault
        ensures { result ≡ record { refusal = refusal; «record» = Some (view_registers self.now.view + self.now.place) } }
    {
        self.view.fault_at(self.place, refusal)
    }

    // Whether an entry before this one is between the same registers. Where the pairs rise none is.
    fn repeats(&self) -> bool
        requires { KnownOrder (given_pairs self.now.view) (self.now.place + 1) self.now.order }
        ensures { result ≡ is_some (find (take self.now.place (given_pairs self.now.view)) self.now.pair.launch self.now.pair.capture) }
    {
        match self.order {
            Order::RisesTo(_) => false,
            _ => {
                let Pair {
                    launch,
                    capture,
                    ..
                } = self.pair;
                self.view.joins_before(self.place, launch, capture)
            }
        }
    }
}
