ghost use Rattle.session.specs.Orders.{OrderedWith};
ghost use Rattle.session.specs.Pairs.{Before};
ghost use Rattle.std.specs.Prelude.{◌↔◌, IsTrue};

use timing::pair::Pair;

// Whether the pairs of a file have risen by launch and capture so far. Among pairs that rise none is between the same
// registers as another, so that a load need not look for one. (Two of the three have no pair, and differ.)
#[derive(Clone, Copy)]
pub(crate) enum Order {
    Nothing,
    RisesTo(Pair),
    Mixed,
}

impl Order {
    // The order with one pair more.
    pub(crate) fn with(self, pair: Pair) -> Order
        ensures { OrderedWith self pair result }
    {
        match self {
            Order::Nothing => Order::RisesTo(pair),
            Order::RisesTo(last) if is_before(last, pair) => Order::RisesTo(pair),
            Order::RisesTo(_) => Order::Mixed,
            Order::Mixed => Order::Mixed,
        }
    }
}

// Whether one pair comes before another, by launch and then by capture.
fn is_before(first: Pair, second: Pair) -> bool
    ensures { IsTrue result ↔ Before first second }
{
    (first.launch, first.capture) < (second.launch, second.capture)
}
